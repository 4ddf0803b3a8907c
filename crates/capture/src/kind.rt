// The kinds of records.
ghost use Rattle.std.specs.Prelude.{◌≡◌};
ghost use Rattle.capture.specs.Kinds.{kind_numbered, allowed};

use refusals::Refusal;

#[derive(Clone, Copy, Debug, PartialEq, Eq)]
pub enum Kind {
    InstructionWrite,
    DataWrite,
    StatusRead,
    DataRead,
    EightBits,
    ChipSelectLow,
    Reset,
    // That value times 8 microseconds passed.
    TimePasses,
}

// The kind with a number.
impl TryFrom<u8> for Kind {
    type Error = Refusal;

    ghost try_from_gives = { λ number answer. answer ≡ kind_numbered number };

    #[tactic(auto, unfolding(crate::specs::Kinds::kind_of))]
    fn try_from(number: u8) -> Result<Kind, Refusal> {
        match number {
            0 => Ok(Kind::InstructionWrite),
            1 => Ok(Kind::DataWrite),
            2 => Ok(Kind::StatusRead),
            3 => Ok(Kind::DataRead),
            4 => Ok(Kind::EightBits),
            5 => Ok(Kind::ChipSelectLow),
            6 => Ok(Kind::Reset),
            7 => Ok(Kind::TimePasses),
            _ => Err(Refusal::Kind),
        }
    }
}

impl Kind {
    // Which values it takes.
    pub(crate) fn allows(self, value: u8) -> bool
        ensures { result ≡ allowed self value }
    {
        match self {
            Kind::StatusRead | Kind::DataRead | Kind::ChipSelectLow => value == 0,
            Kind::Reset => value <= 3,
            _ => true,
        }
    }
}
