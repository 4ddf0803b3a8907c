// The glasses by number.
ghost use Rattle.std.specs.Prelude.{◌≡◌};
ghost use Rattle.glass.specs.Numbers.{numbered};

use crate::Glass;

// The glass that a caller in another language names by a number: 0 is wide and 1 is folded; there is no other. An
// Option and no `TryFrom`: of a number that names no glass there is nothing to say.
pub fn numbered(number: u8) -> Option<Glass>
    ensures { result ≡ numbered number }
{
    match number {
        0 => Some(Glass::Wide),
        1 => Some(Glass::Folded),
        _ => None,
    }
}
