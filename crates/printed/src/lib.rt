// The lines that `replay` prints, each put into a lent buffer.
#![tactic(auto)]

mod answer;
mod text;

pub use answer::RecordAnswer;
pub use text::{digit, has_room, put_last, put_line};
