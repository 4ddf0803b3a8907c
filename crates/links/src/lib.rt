// From the connector's wires to bytes with their register: half bytes are paired, serial bits are heard. States go by value,
// no function asks anything of its caller, and every state has its next one. Numbers are cut by `%` where a state could hold
// more bits than document 01 gives it, so that no sum or product can wrap.
#![tactic(auto)]

mod halves;
mod taking;

ghost use Rattle.std.specs.Prelude.{◌≡◌};
ghost use Rattle.links.specs.Idle.{idle};

use events::{Deed, Transfer};
use serial::{Receiver, idle_receiver};
pub use taking::{reply, take};

// How the controller's answer goes back.
#[derive(Clone, Copy)]
pub enum Rest {
    // It is the reply, and the link is this.
    Stays(Link),
    // A half byte acted: the reply has the answer's upper half, and of a read the lower half is open.
    Halved(Transfer),
    // A read's second half: this is the reply, and nothing is open.
    Handed(u8),
}

// An event of this link: what of it reaches the controller, and how the answer goes back.
#[derive(Clone, Copy)]
pub struct Carried {
    pub deed: Deed,
    pub rest: Rest,
}

// What a link answers, and what it is then.
#[derive(Clone, Copy)]
pub struct Replied {
    pub link: Link,
    pub reply: u8,
}

// How the controller is reached, by the interface pin, and what stands half received there.
#[derive(Clone, Copy)]
pub enum Link {
    Parallel(Pairing),
    Serial(Receiver),
}

// What half bytes have left open: a write's upper half, or the lower half of a read's answer. That nothing is open is a state of the link
// like the others, and spelled as one.
#[derive(Clone, Copy)]
pub enum Pairing {
    Empty,
    Upper { register: bool, upper: u8 },
    Lower { register: bool, lower: u8 },
}

// A link with nothing half received.
pub fn idle(parallel: bool) -> Link
    ensures { result ≡ idle parallel }
{
    if parallel {
        return Link::Parallel(Pairing::Empty);
    }
    Link::Serial(idle_receiver())
}
