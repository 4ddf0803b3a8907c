// The door: `Panel`, the whole state of document 01, with the calls of document 01. A panel goes in by value and is handed on.
// The same calls on memories that a board keeps and lends are those of crate `lent_calls`, with the same definition behind both.
#![tactic(auto)]

use controller::Control;
use links::Link;

mod methods;

// The whole state of document 01, whose controls and link are fields as the memories are, and no `Kept`. Its calls ask that it lies within its ranges, and hand on one that does; drawing asks nothing of it, and so
// the ranges are no invariant of the type.
#[derive(Clone, Copy)]
pub struct Panel {
    pub text: [u8; 128],
    pub glyph: [u8; 128],
    pub graphic: [u8; 2048],
    pub control: Control,
    pub link: Link,
}

// What an accepted call answers that changes a panel where it stands: the reply and the number of bytes named.
#[derive(Clone, Copy)]
pub struct CallAnswer {
    pub reply: u8,
    pub count: usize,
}

// What an accepted call answers: the panel as it is next, the reply and the number of bytes named. A refused one leaves the caller the panel
// that it has.
#[derive(Clone, Copy)]
pub struct Outcome {
    pub panel: Panel,
    pub reply: u8,
    pub count: usize,
}
