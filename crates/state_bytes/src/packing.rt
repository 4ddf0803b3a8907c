// A state as bytes, in the order of `packed` and `link_packed`.
ghost use Rattle.std.specs.Prelude.{◌≡◌};
ghost use Rattle.state_bytes.specs.Packed.{packed};
ghost use Rattle.state_bytes.specs.LinkPacked.{open_bytes, pairing_packed, inside_bytes, header_packed, outside_packed, receiver_packed, link_packed};

use controller::Control;
use links::{Link, Pairing};
use serial::{Header, Receiver, Sync};

// The controls as 27 bytes.
#[tactic(auto, unfolding(crate::specs::Packed::packed), using(crate::proofs::Flags::flag_made))]
pub fn pack(control: Control) -> [u8; 27]
    ensures { result ≡ packed control }
{
    let waiting = control.place.waiting;
    let [first, second, third, fourth] = control.view.reversed;
    let [high, low] = control.time.remaining.to_be_bytes();
    [
        control.place.target as u8,
        control.place.counter,
        control.place.row,
        u8::from(control.place.low),
        u8::from(control.place.dummy),
        u8::from(waiting.is_some()),
        waiting.unwrap_or(0),
        u8::from(control.entry.id),
        u8::from(control.entry.s),
        u8::from(control.shown.display),
        u8::from(control.shown.cursor),
        u8::from(control.shown.blink),
        u8::from(control.function.dl),
        u8::from(control.function.re),
        u8::from(control.function.g),
        u8::from(control.sr),
        u8::from(control.standby),
        control.view.scroll,
        control.view.shift,
        u8::from(first),
        u8::from(second),
        u8::from(third),
        u8::from(fourth),
        u8::from(control.time.timed),
        high,
        low,
        control.view.numbering as u8,
    ]
}

fn open_bytes(kind: u8, bits: u8) -> [u8; 10]
    ensures { result ≡ open_bytes kind bits }
{
    [0, kind, bits, 0, 0, 0, 0, 0, 0, 0]
}

fn pairing_bytes(pairing: Pairing) -> [u8; 10]
    ensures { result ≡ pairing_packed pairing }
{
    match pairing {
        Pairing::Empty => open_bytes(0, 0),
        Pairing::Upper { register, upper } => open_bytes(1 + u8::from(register), upper % 16 * 16),
        Pairing::Lower { register, lower } => open_bytes(3 + u8::from(register), lower % 16 * 16),
    }
}

fn inside_bytes(seen: u8, read: bool, register: bool) -> [u8; 10]
    ensures { result ≡ inside_bytes seen read register }
{
    let [read, register] = [u8::from(read), u8::from(register)];
    [1, 0, 0, 1, 0, seen, read, register, 0, 0]
}

fn header_bytes(header: Header) -> [u8; 10]
    ensures { result ≡ header_packed header }
{
    match header {
        Header::Begun => inside_bytes(0, false, false),
        Header::WithRead(read) => inside_bytes(1, read, false),
        Header::WithRegister { read, register } => inside_bytes(2, read, register),
    }
}

fn outside_bytes(run: u8, sync: Sync) -> [u8; 10]
    ensures { result ≡ outside_packed run sync }
{
    match sync {
        Sync::Lost => [1, 0, 0, 0, run, 0, 0, 0, 0, 0],
        Sync::Body {
            register,
            seen,
            byte,
        } => [1, 0, 0, 2, run, 0, 0, u8::from(register), seen, byte],
    }
}

fn receiver_bytes(receiver: Receiver) -> [u8; 10]
    ensures { result ≡ receiver_packed receiver }
{
    match receiver {
        Receiver::Inside(header) => header_bytes(header),
        Receiver::Outside { run, sync } => outside_bytes(run, sync),
    }
}

// The link as ten bytes.
pub fn pack_link(link: Link) -> [u8; 10]
    ensures { result ≡ link_packed link }
{
    match link {
        Link::Parallel(pairing) => pairing_bytes(pairing),
        Link::Serial(receiver) => receiver_bytes(receiver),
    }
}
