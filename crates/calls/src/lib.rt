// One call for every event, on memories that a board keeps and lends. It refuses bad input itself; else it carries out what it was given,
// repaints the bytes that this names, and answers with its reply and the number of bytes named.
#![tactic(auto)]

use controller::Control;
use links::Link;

mod calls;

pub use calls::call;

// What a board keeps of a panel beside its memories.
#[derive(Clone, Copy)]
pub struct Kept {
    pub control: Control,
    pub link: Link,
}

// What an accepted call answers: what the board keeps next, the reply and the number of bytes named.
#[derive(Clone, Copy)]
pub struct LentOutcome {
    pub kept: Kept,
    pub reply: u8,
    pub count: usize,
}
