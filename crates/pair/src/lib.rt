// Two panels on one wire, by value. A pair is made of two panels, and taken apart into them again by its fields, so that every other call
// can be made on one side.
#![tactic(auto)]

use lent_pair::Sides;
use panel::Panel;

mod methods;

// Not `Sides`, which is of another crate: the calls are methods of this type.
#[derive(Clone, Copy)]
pub struct Pair {
    pub left: Panel,
    pub right: Panel,
}

// What an accepted call answers: both panels as they are next, and how many bytes of either frame were named.
#[derive(Clone, Copy)]
pub struct PairOutcome {
    pub pair: Pair,
    pub counts: Sides<usize>,
}
