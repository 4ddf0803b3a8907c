// Captures: the kinds of records, the record at the beginning of a capture or of a part of one, and what it is to a panel.
#![tactic(auto)]

mod kind;
mod record;

pub use kind::Kind;
pub use record::{Answer, Record, read, taken_with};
