// Painting the bytes that a transfer names, and no others, into a frame that the caller lends; and counting them: a cell, a half of an image
// wherever it shows, a graphic byte. Crate `regions` puts them together.
// The memories and controls are those after the transfer, and what the frame held before does not matter.
#![tactic(auto)]

pub mod cells;
pub mod halves;

// One byte of an image: a half of a glyph word, and the dots that it holds.
#[derive(Clone, Copy)]
pub(crate) struct ImageByte {
    pub word: u8,
    pub low: bool,
    pub dots: u8,
}
