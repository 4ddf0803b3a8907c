// The controls as 27 bytes and the link as 10, for what crosses the border to other languages. Crate `unpacking` reads the controls back.
#![tactic(auto)]

mod packing;

pub use packing::{pack, pack_link};
