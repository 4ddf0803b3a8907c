// The link that ten bytes spell, in the order of `link_packed`. Any bytes at all are a link.
ghost use Rattle.std.specs.Prelude.{◌≡◌};
ghost use Rattle.state_bytes.specs.LinkPacked.{pairing_from, header_from, receiver_from, unpacked_link};

use crate::flag;
use links::{Link, Pairing};
use serial::{Header, Receiver, Sync};

fn pairing(kind: u8, bits: u8) -> Pairing
    ensures { result ≡ pairing_from kind bits }
{
    let four = bits / 16;
    match kind {
        0 => Pairing::Empty,
        1 | 2 => Pairing::Upper {
            register: kind == 2,
            upper: four,
        },
        _ => Pairing::Lower {
            register: kind != 3,
            lower: four,
        },
    }
}

fn header(seen: u8, read: bool, register: bool) -> Header
    ensures { result ≡ header_from seen read register }
{
    match seen {
        0 => Header::Begun,
        1 => Header::WithRead(read),
        _ => Header::WithRegister { read, register },
    }
}

#[tactic(auto, unfolding(state_bytes::specs::LinkPacked::receiver_from))]
fn receiver(bytes: &[u8; 10]) -> Receiver
    ensures { result ≡ receiver_from bytes.now }
{
    match bytes[3] {
        0 => Receiver::Outside {
            run: bytes[4],
            sync: Sync::Lost,
        },
        1 => Receiver::Inside(header(bytes[5], flag(bytes[6]), flag(bytes[7]))),
        _ => Receiver::Outside {
            run: bytes[4],
            sync: Sync::Body {
                register: flag(bytes[7]),
                seen: bytes[8],
                byte: bytes[9],
            },
        },
    }
}

#[tactic(auto, unfolding(state_bytes::specs::LinkPacked::unpacked_link))]
pub fn unpack_link(bytes: &[u8; 10]) -> Link
    ensures { result ≡ unpacked_link bytes.now }
{
    if flag(bytes[0]) {
        Link::Serial(receiver(bytes))
    } else {
        Link::Parallel(pairing(bytes[1], bytes[2]))
    }
}
