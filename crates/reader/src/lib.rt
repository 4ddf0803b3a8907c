// A capture read record by record: what stands at a position of it, and a reader that holds the capture it was lent.
#![tactic(auto)]

ghost use Rattle.std.specs.Prelude.{◌≡◌};
ghost use Rattle.capture.specs.Record.{passed};
ghost use Rattle.reader.specs.Part.{lent};
ghost use Rattle.reader.specs.Capture.{part_from, step_at};
ghost use Rattle.reader.specs.Reader.{over, reader_step};

use capture::{Answer, read};

// The caller's own capture from a position on; a position past the end is the end.
fn part_from(capture: &[u8], at: usize) -> &[u8]
    ensures { lent result ≡ part_from capture.entry at }
{
    &capture[at.min(capture.len())..]
}

// What stands at a position, and the position behind it: a record's four bytes further on, or the same where there is none.
#[derive(Clone, Copy)]
pub struct Step {
    pub answer: Answer,
    pub next: usize,
}

// `read` is given the part that begins at the position.
fn step_at(capture: &[u8], at: usize) -> Step
    ensures { result ≡ step_at capture.now at }
{
    let answer = read(part_from(capture, at));
    Step {
        answer,
        next: at + passed(answer),
    }
}

// How many bytes of the capture an answer takes to move on.
fn passed(answer: Answer) -> usize
    ensures { result ≡ passed answer }
{
    match answer {
        Ok(Some(_)) => 4,
        Ok(None) | Err(_) => 0,
    }
}

// A reader holds the capture that it was lent, and a position in it. Its step takes it apart for a function on the slice
// and the number.
#[derive(Clone, Copy)]
pub struct Reader<'a> {
    capture: &'a [u8],
    at: usize,
}

impl<'a> Reader<'a> {
    // A reader over a capture, at a position of it.
    pub fn over(capture: &'a [u8], at: usize) -> Reader<'a>
        ensures { result ≡ over capture.entry at }
    {
        Reader { capture, at }
    }

    // What stands at the reader's position, and where it reads next.
    pub fn step(self) -> Step
        ensures { result ≡ reader_step self.entry }
    {
        step_at(self.capture, self.at)
    }
}

// One step of a reader over a capture, at a position of it, for whoever has a plain slice and a number.
pub fn record_at(capture: &[u8], at: usize) -> Step
    ensures { result ≡ step_at capture.now at }
{
    Reader::over(capture, at).step()
}
