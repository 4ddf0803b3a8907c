// Why a call or a record is refused, and the number of each refusal.
#![tactic(auto)]

ghost use Rattle.std.specs.Prelude.{◌≡◌};
ghost use Rattle.refusals.specs.Numbers.{refusal_number, answer_number};

#[derive(Clone, Copy, Debug, PartialEq, Eq)]
pub enum Refusal {
    // The frame has not 1,024 bytes.
    Frame,
    // The half font has not 2,048.
    HalfFont,
    // The full font has no multiple of 32, or more than 281,600.
    FullFont,
    // The sender's buffer has fewer than three.
    Buffer,
    // What came is of the other link.
    OtherLink,
    // Only one to three bytes remain of a capture.
    Cut,
    // A record's mark is wrong.
    Mark,
    // A record's kind is none that the panel has. So it is with time that passes on a panel that has none.
    Kind,
    // A record's value is not allowed for its kind.
    Value,
}

impl From<Refusal> for u8 {
    ghost from_gives = { λ refusal number. number ≡ refusal_number refusal };

    fn from(refusal: Refusal) -> u8 {
        match refusal {
            Refusal::Frame => 1,
            Refusal::HalfFont => 2,
            Refusal::FullFont => 3,
            Refusal::Buffer => 4,
            Refusal::OtherLink => 5,
            Refusal::Cut => 6,
            Refusal::Mark => 7,
            Refusal::Kind => 8,
            Refusal::Value => 9,
        }
    }
}

// The number that an answer goes by where numbers alone can cross: 0 where nothing was refused.
pub fn number<T>(answer: &Result<T, Refusal>) -> u8
    ensures { result ≡ answer_number answer.now }
{
    match answer {
        Ok(_) => 0,
        Err(refusal) => (*refusal).into(),
    }
}
