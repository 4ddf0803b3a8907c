// The replay of a capture on a panel with a lent frame and fonts, until the first refusal.
#![tactic(auto)]

use panel::Panel;
use refusals::Refusal;

mod replaying;
mod telling;

pub use replaying::{replay, transcribe};

// Why a replay stopped: a third way beside the end and a refusal, so that it is no Result.
#[derive(Clone, Copy, Debug, PartialEq, Eq)]
pub enum Halt {
    // At the end of the capture.
    End,
    Refused(Refusal),
    // One more line might have had no room.
    Full,
}

// Where a replay stopped: the panel then, how many records were accepted, and why. Beside it the reply and the count of the last record
// accepted, 0 and 0 where there was none, as C is told them; and how many bytes of text were written.
#[derive(Clone, Copy)]
pub struct Stop {
    pub panel: Panel,
    pub place: usize,
    pub halt: Halt,
    pub reply: u8,
    pub count: usize,
    pub filled: usize,
}
