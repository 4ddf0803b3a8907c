// The controller: all of the panel's state but the link, after document 01's "Memories and flags", and what data transfers do to it.
// The definitions of what instructions do stand here too; the code that does it is the crate `instructions`.
// The three memories are arrays that the caller lends; everything else is `Control`, which goes in and comes back by value.
#![tactic(auto)]

use events::Numbering;
use table::Target;

pub mod controls;
pub mod data;
pub mod named;
pub mod places;

// Where the next data transfer goes.
#[derive(Clone, Copy)]
pub struct Place {
    pub target: Target,
    pub counter: u8,
    pub row: u8,
    // Whether the low half comes next.
    pub low: bool,
    // Whether a dummy read is due.
    pub dummy: bool,
    // A graphic row that waits for its column.
    pub waiting: Option<u8>,
}

// I/D and S.
#[derive(Clone, Copy)]
pub struct Entry {
    pub id: bool,
    pub s: bool,
}

// Display, cursor and blink.
#[derive(Clone, Copy)]
pub struct Shown {
    pub display: bool,
    pub cursor: bool,
    pub blink: bool,
}

// DL, RE and G: what a function set speaks of.
#[derive(Clone, Copy)]
pub struct Function {
    pub dl: bool,
    pub re: bool,
    pub g: bool,
}

// How the glass looks at the memories, and at the full font.
#[derive(Clone, Copy)]
pub struct View {
    pub scroll: u8,
    pub shift: u8,
    pub reversed: [bool; 4],
    pub numbering: Numbering,
}

// Whether the panel has time, and for how many microseconds it is busy yet. No Option of the microseconds: the definitions and the spelled
// bytes have both, as request K1 has them.
#[derive(Clone, Copy)]
pub struct Time {
    pub timed: bool,
    pub remaining: u16,
}

// All but the memories. That its numbers lie in their ranges is no invariant of the type but asked for where it matters: drawing and
// `state_bytes` take any controls, as a caller may make them of any numbers.
#[derive(Clone, Copy)]
pub struct Control {
    pub place: Place,
    pub entry: Entry,
    pub shown: Shown,
    pub function: Function,
    pub sr: bool,
    pub view: View,
    pub standby: bool,
    pub time: Time,
}

// Which bytes of the glass a transfer names; a cell by its text word. One that names none is a region like any other.
#[derive(Clone, Copy)]
pub enum Region {
    Nothing,
    Whole,
    Cells(Option<u8>, Option<u8>),
    GlyphHalf { word: u8, low: bool },
    GraphicHalf { row: u8, column: u8, low: bool },
}
