// What the glass shows where: the memory row, the text word, and what of the fonts that word shows, by a numbering.
ghost use Rattle.std.specs.Prelude.{◌≡◌, ◌<◌};
ghost use Rattle.controller.specs.Glass.{shown_row, shown_word};
ghost use Rattle.picture.specs.Picture.{word_content};

use controller::View;
use events::Numbering;
use glyph::Content;
use glyph::lookup::content;

// Memory row s, at a row of the glass.
#[tactic(auto, unfolding(controller::specs::Glass::shown_row))]
pub fn shown_row(view: View, row: u32) -> u32
    requires { row < 32 }
    ensures within { result < 64 }
    ensures value { result ≡ shown_row view row }
{
    (row + view.scroll as u32) % 64
}

// The text word of a cell there.
#[tactic(auto, unfolding(controller::specs::Glass::shown_word))]
pub fn shown_word(view: View, row: u32, cell: u32) -> u32
    requires { (row < 32) × (cell < 16) }
    ensures within { result < 64 }
    ensures value { result ≡ shown_word view row cell }
{
    let s = shown_row(view, row);
    16 * (s / 16) + (cell + view.shift as u32) % 16
}

#[tactic(auto, unfolding(crate::specs::Picture::word_content))]
pub fn word_content(text: &[u8; 128], numbering: Numbering, word: u32, length: usize) -> Content
    requires { word < 64 }
    ensures { result ≡ word_content numbering length text.now word }
{
    let at = 2 * (word as usize);
    content(numbering, text[at], text[at + 1], length)
}
