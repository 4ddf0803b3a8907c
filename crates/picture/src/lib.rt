// The picture, after document 01: what each byte of the glass shows. The memories and the fonts are lent, and only looked at. Rows, columns,
// cells and words are counted in 32 bits: on a small core the loops are shorter for it.
#![tactic(auto)]

use controller::View;
use glyph::Glyphs;

pub mod lent;
mod looks;
pub mod paint;
pub mod shade;
pub mod shown;

// What the painters look at, made once for a call: the memories, the fonts, and what the controls say of the picture.
#[derive(Clone, Copy)]
pub struct Scene<'a> {
    pub text: &'a [u8; 128],
    pub graphic: &'a [u8; 2048],
    pub glyphs: Glyphs<'a>,
    pub look: Look,
}

// What the controls say of the picture.
#[derive(Clone, Copy)]
pub struct Look {
    pub view: View,
    // The counter's cell, by its text word, with its marks: the cursor, and blink in its phase.
    pub counter: Option<u8>,
    pub cursor: bool,
    pub blink: bool,
    pub graphic: bool,
    pub dark: bool,
}

// The two bytes of one row of a cell.
#[derive(Clone, Copy)]
pub struct TwoBytes {
    pub left: u8,
    pub right: u8,
}
