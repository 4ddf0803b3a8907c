// What a link makes of an event, and how the controller's answer goes back over it.
ghost use Rattle.std.specs.Prelude.{◌≡◌};
ghost use Rattle.links.specs.Taken.{stays, deed_of, by_width, transfer_taken, bit_taken, select_taken, taken_by, replied};

use crate::halves::{first_reply, pair, pairing_after, writing};
use crate::{Carried, Link, Pairing, Replied, Rest, idle};
use events::{Deed, Event, Transfer};
use serial::{Received, hear, select_low};

// What a link makes of an event, by DL; nothing where it is of the other link.
#[tactic(auto, unfolding(crate::specs::Taken::taken_by))]
pub fn take(dl: bool, link: Link, event: Event) -> Option<Carried>
    ensures { result ≡ taken_by dl link event }
{
    match event {
        Event::Transfer(transfer) => transfer_taken(dl, link, transfer),
        Event::Bit(bit) => bit_taken(link, bit),
        Event::SelectLow => select_taken(link),
        Event::Reset(pin) => Some(stays(Deed::Fresh(pin), idle(pin.parallel))),
        Event::Pass(eights) => Some(stays(Deed::Pass(eights), link)),
    }
}

// The answer is the reply, and the link is this.
fn stays(deed: Deed, link: Link) -> Carried
    ensures { result ≡ stays deed link }
{
    Carried {
        deed,
        rest: Rest::Stays(link),
    }
}

// A transfer is of the parallel link.
fn transfer_taken(dl: bool, link: Link, transfer: Transfer) -> Option<Carried>
    ensures { result ≡ transfer_taken dl link transfer }
{
    match link {
        Link::Parallel(pairing) => Some(by_width(dl, pairing, transfer)),
        Link::Serial(_) => None,
    }
}

// DL = 1: one transfer, one byte. DL = 0: half bytes.
#[tactic(auto, unfolding(crate::specs::Taken::by_width))]
fn by_width(dl: bool, pairing: Pairing, transfer: Transfer) -> Carried
    ensures { result ≡ by_width dl pairing transfer }
{
    if dl {
        return stays(Deed::Whole(transfer), Link::Parallel(pairing));
    }
    pair(pairing, transfer)
}

// A bit is of the serial link.
fn bit_taken(link: Link, bit: bool) -> Option<Carried>
    ensures { result ≡ bit_taken link bit }
{
    match link {
        Link::Parallel(_) => None,
        Link::Serial(receiver) => {
            let heard = hear(receiver, bit);
            Some(stays(deed_of(heard.received), Link::Serial(heard.receiver)))
        }
    }
}

// The byte that a bit completes, if it completes one.
fn deed_of(received: Option<Received>) -> Deed
    ensures { result ≡ deed_of received }
{
    match received {
        None => Deed::Nothing,
        Some(Received { register, byte }) => Deed::Whole(writing(register, byte)),
    }
}

// So is chip select low.
fn select_taken(link: Link) -> Option<Carried>
    ensures { result ≡ select_taken link }
{
    match link {
        Link::Parallel(_) => None,
        Link::Serial(receiver) => Some(stays(Deed::Nothing, Link::Serial(select_low(receiver)))),
    }
}

// The reply, and what the link is then, where the controller gave this answer.
pub fn reply(rest: Rest, answer: u8) -> Replied
    ensures { result ≡ replied rest answer }
{
    match rest {
        Rest::Stays(link) => Replied {
            link,
            reply: answer,
        },
        Rest::Halved(transfer) => Replied {
            link: Link::Parallel(pairing_after(transfer, answer)),
            reply: first_reply(answer),
        },
        Rest::Handed(reply) => Replied {
            link: Link::Parallel(Pairing::Empty),
            reply,
        },
    }
}
