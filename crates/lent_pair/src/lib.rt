// Two panels on one wire, after request K5: they share clock and data, and each has a select of its own. At each clock a panel whose
// select is high hears the bit, and one whose select is low loses sync. A refusal touches neither. Here on memories that a board keeps and
// lends; crate `pair` has it by value.
#![tactic(auto)]

use calls::Kept;

mod lent;
mod wire;

pub use lent::bit;

// A clock of the wire: the bit on the data line, and the select of either panel.
#[derive(Clone, Copy)]
pub struct Clock {
    pub bit: bool,
    pub left: bool,
    pub right: bool,
}

// The same of either panel.
#[derive(Clone, Copy)]
pub struct Sides<T> {
    pub left: T,
    pub right: T,
}

// What an accepted call answers: what the board keeps of either panel next, and how many bytes of its frame were named.
#[derive(Clone, Copy)]
pub struct LentPairOutcome {
    pub kept: Sides<Kept>,
    pub counts: Sides<usize>,
}
