// The controls: fresh, what is asked of them and put in; and the steps that instructions and data transfers share.
ghost use Rattle.std.specs.Prelude.{◌≡◌, ◌<◌};
ghost use Rattle.controller.specs.State.{numbering_of, fresh_control, remade};
ghost use Rattle.controller.specs.Instructions.{with_time, stepped, display_moved, modes};

use crate::{Control, Entry, Function, Place, Shown, Time, View};
use events::{Made, Numbering, Pin};
use table::{Modes, Target};

// The numbering that a bit chooses. By this name and not as `From<bool>`, which would not say what the bit is.
pub fn numbering(bit: bool) -> Numbering
    ensures { result ≡ numbering_of bit }
{
    if bit {
        return Numbering::By160;
    }
    Numbering::By96
}

// The counter one to the right or to the left, modulo 64.
pub fn stepped(right: bool, counter: u8) -> u8
    requires { counter < 64 }
    ensures { result ≡ stepped right counter }
{
    if right {
        return (counter + 1) % 64;
    }
    (counter + 63) % 64
}

impl View {
    // Display left adds 1 to the shift modulo 16, right subtracts 1.
    pub fn display_moved(self, right: bool) -> View
        requires { self.shift < 16 }
        ensures { result ≡ display_moved right self }
    {
        let step = if right { 15 } else { 1 };
        View {
            shift: (self.shift + step) % 16,
            ..self
        }
    }
}

impl Control {
    // The controls of a panel that has just been made.
    #[tactic(auto, unfolding(crate::specs::State::fresh_control))]
    pub fn fresh(made: Made) -> Control
        ensures { result ≡ fresh_control made }
    {
        Control {
            place: Place {
                target: Target::Text,
                counter: 0,
                row: 0,
                low: false,
                dummy: false,
                waiting: None,
            },
            entry: Entry { id: true, s: false },
            shown: Shown {
                display: false,
                cursor: false,
                blink: false,
            },
            function: Function {
                dl: true,
                re: false,
                g: false,
            },
            sr: false,
            view: View {
                scroll: 0,
                shift: 0,
                reversed: [false; 4],
                numbering: made.numbering,
            },
            standby: false,
            time: Time {
                timed: made.time,
                remaining: 0,
            },
        }
    }

    // What reset makes the next state with: what this one keeps, the pin and the numbering.
    pub fn remade(self, pin: Pin) -> Made
        ensures { result ≡ remade self pin }
    {
        Made {
            parallel: pin.parallel,
            time: self.time.timed,
            numbering: pin.numbering,
        }
    }

    // What the table asks for beside the byte.
    pub fn modes(self) -> Modes
        ensures { result ≡ modes self }
    {
        Modes {
            re: self.function.re,
            sr: self.sr,
            target: self.place.target,
        }
    }

    pub fn with_time(self, time: Time) -> Control
        ensures { result ≡ with_time time self }
    {
        let mut next = self;
        next.time = time;
        next
    }
}
