// Which codes of the present screen have no glyph in the lent font: the box that request K6 shows for each does not say which one to draw.
#![tactic(auto)]

ghost use Rattle.std.specs.Prelude.{◌≡◌, ◌<◌, ◌≤◌};
ghost use Rattle.missing.specs.Missing.{band_row, missing_at};

use controller::View;
use glyph::Content;
use picture::shown::{shown_word, word_content};

// A code of two bytes.
#[derive(Clone, Copy)]
pub struct Code {
    pub lead: u8,
    pub trail: u8,
}

// The first row of a band, the rows of the glass that show one line of text; 32 where the glass ends before it. Scrolling may cut the first
// band and the last of three.
#[tactic(auto, unfolding(crate::specs::Missing::band_row))]
pub fn band_row(view: View, band: u32) -> u32
    requires { band ≤ 3 }
    ensures within { result ≤ 32 }
    ensures value { result ≡ band_row view band }
{
    if band == 0 {
        return 0;
    }
    let row = 16 * band - view.scroll as u32 % 16;
    row.min(32)
}

// The code whose glyph a cell of a row of the glass lacks, if one, with a full font of `length` bytes.
pub fn missing_at(text: &[u8; 128], view: View, row: u32, cell: u32, length: usize) -> Option<Code>
    requires { (row < 32) × (cell < 16) }
    ensures { result ≡ missing_at view length text.now row cell }
{
    let word = shown_word(view, row, cell);
    match word_content(text, view.numbering, word, length) {
        Content::Missing => {
            let at = 2 * (word as usize);
            Some(Code {
                lead: text[at],
                trail: text[at + 1],
            })
        }
        _ => None,
    }
}
