// What a text word shows, after document 01's "The picture" and request K6, in layers that know nothing of one another's rules: crate
// `numbering` gives a code's number in the full font; here, from it and from the length of that font, what the cell shows; and from that its
// dots, a byte or a whole tile.
#![tactic(auto)]

pub mod dots;
pub mod lookup;
pub mod tile;

// What a cell shows.
#[derive(Clone, Copy)]
pub enum Content {
    Image(u8),
    Full(u16),
    Halves { high: u8, low: u8 },
    // A code that is allowed, but whose glyph is not in the lent font: a box.
    Missing,
    Blank,
}

// What dots are taken from: glyph memory and the two fonts.
#[derive(Clone, Copy)]
pub struct Glyphs<'a> {
    pub memory: &'a [u8; 128],
    pub half: &'a [u8; 2048],
    pub full: &'a [u8],
}
