// What a cell shows: an image, a full glyph or the box for one that is missing, two halves, or nothing.
ghost use Rattle.std.specs.Prelude.{◌≡◌};
ghost use Rattle.glyph.specs.Lookup.{full_of, font_of, content_of};

use crate::Content;
use controller::named::image;
use events::Numbering;
use numbering::number;

// A numbered code shows its glyph where that lies whole inside a full font of `length` bytes; else its glyph is missing. One without a number is
// blank.
#[tactic(auto, unfolding(crate::specs::Lookup::full_of))]
fn full_glyph(code: Option<u16>, length: usize) -> Content
    ensures { result ≡ full_of code length }
{
    match code {
        Some(n) => {
            if 32 * (n as usize) + 32 <= length {
                Content::Full(n)
            } else {
                Content::Missing
            }
        }
        None => Content::Blank,
    }
}

// A word that shows no image: by the full font from A1h on, else each byte by itself.
#[tactic(auto, unfolding(crate::specs::Lookup::font_of))]
fn by_font(numbering: Numbering, high: u8, low: u8, length: usize) -> Content
    ensures { result ≡ font_of numbering high low length }
{
    if high >= 0xA1 {
        return full_glyph(number(numbering, high, low), length);
    }
    Content::Halves { high, low }
}

// What the cell of a text word shows, with a full font of `length` bytes.
#[tactic(auto, unfolding(crate::specs::Lookup::content_of))]
pub fn content(numbering: Numbering, high: u8, low: u8, length: usize) -> Content
    ensures { result ≡ content_of numbering high low length }
{
    match image(high, low) {
        Some(i) => Content::Image(i),
        None => by_font(numbering, high, low, length),
    }
}
