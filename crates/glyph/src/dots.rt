// One byte of the dots of what a cell shows.
ghost use Rattle.std.specs.Prelude.{◌≡◌, ◌+◌, ◌*◌, ◌<◌, ◌≤◌, length};
ghost use Rattle.base.specs.Choice.{when◌then◌else◌};
ghost use Rattle.glyph.specs.Dots.{has_half, image_byte, full_byte, half_byte, box_byte, dots_of};
ghost use Rattle.glyph.specs.Tiles.{Inside};

use crate::{Content, Glyphs};

// Row y of one of the glyphs of 32 bytes that stand in a font, or of the images in glyph memory.
fn wide_byte(from: &[u8], n: usize, y: usize, right: bool) -> u8
    requires { (32 * n + 32 ≤ length from.now) × (y < 16) }
    ensures full { result ≡ full_byte from.now n y right }
    ensures image { result ≡ image_byte from.now n y right }
{
    from[32 * n + 2 * y + controller::places::half(right)]
}

// Whether a code has a half glyph.
pub(crate) fn has_half(code: u8) -> bool
    ensures { result ≡ has_half code }
{
    (0x02..=0x7F).contains(&code)
}

// Row y of half glyph `code`.
#[tactic(auto, unfolding(crate::specs::Dots::half_byte))]
fn half_byte(code: u8, y: usize, half: &[u8; 2048]) -> u8
    requires { y < 16 }
    ensures { result ≡ half_byte half.now code y }
{
    if has_half(code) {
        half[16 * (code as usize) + y]
    } else {
        0
    }
}

// The code of one of two half glyphs.
fn code_of(high: u8, low: u8, right: bool) -> u8
    ensures { result ≡ (when right then low else high) }
{
    if right { low } else { high }
}

// The left or the right byte of row y of the box.
#[tactic(auto, unfolding(crate::specs::Dots::box_byte))]
fn box_byte(y: usize, right: bool) -> u8
    ensures { result ≡ box_byte y right }
{
    if y == 0 || y == 15 {
        return 0xFF;
    }
    if right { 0x01 } else { 0x80 }
}

impl Glyphs<'_> {
    // The left or the right byte of glyph row y of what a cell shows.
    #[tactic(auto, unfolding(crate::specs::Dots::dots_of))]
    pub fn dot_byte(&self, content: Content, y: usize, right: bool) -> u8
        requires { (y < 16) × Inside content (length self.now.full.now) }
        ensures { result ≡ dots_of self.now.half.now self.now.full.now self.now.memory.now content y right }
    {
        let Glyphs { memory, half, full } = *self;
        match content {
            Content::Image(i) => wide_byte(memory, usize::from(i), y, right),
            Content::Full(n) => wide_byte(full, usize::from(n), y, right),
            Content::Halves { high, low } => half_byte(code_of(high, low, right), y, half),
            Content::Missing => box_byte(y, right),
            Content::Blank => 0,
        }
    }
}
