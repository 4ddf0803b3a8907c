// All sixteen rows of a cell at once: its tile, 32 bytes, two to a row. Bytes that lie together are moved together. Counters have 32 bits:
// on a small core a turn is shorter for it.
ghost use Rattle.std.specs.Prelude.{◌≡◌, ◌+◌, ◌*◌, ◌<◌, ◌≤◌, length, get_or};
ghost use Rattle.base.specs.Lists.{upto};
ghost use Rattle.glyph.specs.Dots.{half_byte, box_column, box_byte};
ghost use Rattle.glyph.specs.Tiles.{Inside, tile_dots, odd, beside};

use crate::dots::has_half;
use crate::{Content, Glyphs};

// Bytes that lie together in a font or in glyph memory.
fn taken<const N: usize>(from: &[u8], at: usize) -> [u8; N]
    requires { at + N ≤ length from.now }
    ensures { result ≡ upto N (λ i. get_or from.now (at + i) 0) }
{
    let mut block = [0u8; N];
    block.copy_from_slice(&from[at..at + N]);
    block
}

// Two columns of sixteen bytes side by side.
fn beside(left: [u8; 16], right: [u8; 16]) -> [u8; 32]
    ensures { result ≡ upto 32 (beside left right) }
{
    let mut tile = [0u8; 32];
    for y in 0..16u32 {
        let k = y as usize;
        tile[2 * k] = left[k];
        tile[2 * k + 1] = right[k];
    }
    tile
}

// The sixteen bytes of a code's half glyph; blank where it has none.
#[tactic(auto, unfolding(base::specs::Lists::upto, crate::specs::Dots::half_byte))]
fn column(code: u8, half: &[u8; 2048]) -> [u8; 16]
    ensures { result ≡ upto 16 (half_byte half.now code) }
{
    if has_half(code) {
        taken(half, 16 * (code as usize))
    } else {
        [0u8; 16]
    }
}

// A column of the box, for a glyph that is missing: its first row and its last, and between them the edge at its side.
#[tactic(auto, unfolding(base::specs::Lists::upto))]
fn box_column(edge: u8) -> [u8; 16]
    ensures { result ≡ upto 16 (box_column edge) }
{
    let mut column = [edge; 16];
    column[0] = 0xFF;
    column[15] = 0xFF;
    column
}

impl Glyphs<'_> {
    // The tile of what a cell shows.
    pub fn tile(&self, content: Content) -> [u8; 32]
        requires { Inside content (length self.now.full.now) }
        ensures { result ≡ upto 32 (tile_dots self.now.half.now self.now.full.now self.now.memory.now content) }
    {
        let Glyphs { memory, half, full } = *self;
        match content {
            Content::Image(i) => taken(memory, 32 * (i as usize)),
            Content::Full(n) => taken(full, 32 * (n as usize)),
            Content::Halves { high, low } => beside(column(high, half), column(low, half)),
            Content::Missing => beside(box_column(0x80), box_column(0x01)),
            Content::Blank => [0u8; 32],
        }
    }
}
