// The record at the beginning of a capture, and what it is to a panel.
ghost use Rattle.std.specs.Prelude.{◌≡◌};
ghost use Rattle.capture.specs.Record.{marked, read_first, taken_with};

use crate::Kind;
use refusals::Refusal;

#[derive(Clone, Copy, Debug, PartialEq, Eq)]
pub struct Record {
    pub kind: Kind,
    pub value: u8,
}

// What stands in a capture: a record, none where the capture ends, or why there is none.
pub type Answer = Result<Option<Record>, Refusal>;

// Whether two bytes are a record's mark.
fn marked(first: u8, second: u8) -> bool
    ensures { result ≡ marked first second }
{
    first == 0xA5 && second == 0x5A
}

// Reads the record at the beginning of a capture, or of the part of one that it is given. Time that passes is a record here; `taken_with`
// says what it is to a panel.
#[tactic(auto, unfolding(crate::specs::Record::read_first))]
pub fn read(capture: &[u8]) -> Answer
    ensures { result ≡ read_first capture.now }
{
    if capture.is_empty() {
        return Ok(None);
    }
    if capture.len() <= 3 {
        return Err(Refusal::Cut);
    }
    if !marked(capture[0], capture[1]) {
        return Err(Refusal::Mark);
    }
    let kind = Kind::try_from(capture[2])?;
    let value = capture[3];
    if !kind.allows(value) {
        return Err(Refusal::Value);
    }
    Ok(Some(Record { kind, value }))
}

// What an answer is to a panel with or without time: without, time that passes is refused.
pub fn taken_with(answer: Answer, time: bool) -> Answer
    ensures { result ≡ taken_with time answer }
{
    match answer {
        Ok(Some(record)) if !time && record.kind == Kind::TimePasses => Err(Refusal::Kind),
        _ => answer,
    }
}
