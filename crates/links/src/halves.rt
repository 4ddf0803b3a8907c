// The parallel link with DL = 0: two half bytes of one kind make a transfer.
ghost use Rattle.std.specs.Prelude.{◌≡◌};
ghost use Rattle.base.specs.Bits.{raised};
ghost use Rattle.links.specs.Halves.{joined, writing, reading, kept, acts, hands_over, write_half, read_half, paired};
ghost use Rattle.links.specs.Halves.{first_reply, pairing_after};

use crate::{Carried, Link, Pairing, Rest};
use events::{Deed, Transfer};

// One half-byte transfer, after what is open. Of a write only bits 7..4 count.
#[tactic(auto, unfolding(crate::specs::Halves::paired))]
pub(crate) fn pair(pairing: Pairing, transfer: Transfer) -> Carried
    ensures { result ≡ paired pairing transfer }
{
    match transfer {
        Transfer::Instruct(value) => write_half(pairing, false, value),
        Transfer::Write(value) => write_half(pairing, true, value),
        Transfer::Status => read_half(pairing, false),
        Transfer::Read => read_half(pairing, true),
    }
}

// A write's half byte: the second if a first of the same kind is open, else a first.
#[tactic(auto, unfolding(crate::specs::Halves::write_half))]
fn write_half(pairing: Pairing, register: bool, value: u8) -> Carried
    ensures { result ≡ write_half pairing register value }
{
    match pairing {
        Pairing::Upper {
            register: was,
            upper,
        } if was == register => acts(writing(register, joined(upper, value / 16))),
        _ => kept(register, value / 16),
    }
}

// A read's half byte: the second if the rest of an answer of the same kind is due, else a first.
#[tactic(auto, unfolding(crate::specs::Halves::read_half))]
fn read_half(pairing: Pairing, register: bool) -> Carried
    ensures { result ≡ read_half pairing register }
{
    match pairing {
        Pairing::Lower {
            register: was,
            lower,
        } if was == register => hands_over(raised(lower)),
        _ => acts(reading(register)),
    }
}

// A write's first half: nothing acts, and its upper half is open.
fn kept(register: bool, upper: u8) -> Carried
    ensures { result ≡ kept register upper }
{
    Carried {
        deed: Deed::Nothing,
        rest: Rest::Stays(Link::Parallel(Pairing::Upper { register, upper })),
    }
}

// A write's second half, here with the whole byte, or a read's first half.
fn acts(transfer: Transfer) -> Carried
    ensures { result ≡ acts transfer }
{
    Carried {
        deed: Deed::Whole(transfer),
        rest: Rest::Halved(transfer),
    }
}

// A read's second half.
fn hands_over(reply: u8) -> Carried
    ensures { result ≡ hands_over reply }
{
    Carried {
        deed: Deed::Nothing,
        rest: Rest::Handed(reply),
    }
}

// The transfer that writes a byte to a register.
pub(crate) fn writing(register: bool, byte: u8) -> Transfer
    ensures { result ≡ writing register byte }
{
    if register {
        return Transfer::Write(byte);
    }
    Transfer::Instruct(byte)
}

fn reading(register: bool) -> Transfer
    ensures { result ≡ reading register }
{
    if register {
        return Transfer::Read;
    }
    Transfer::Status
}

// The reply to a half byte that acted, where the transfer answered this byte. A write answers 0.
pub(crate) fn first_reply(answer: u8) -> u8
    ensures { result ≡ first_reply answer }
{
    raised(answer / 16)
}

// What a half byte that acted leaves open, where the transfer answered this byte.
pub(crate) fn pairing_after(acted: Transfer, answer: u8) -> Pairing
    ensures { result ≡ pairing_after acted answer }
{
    match acted {
        Transfer::Instruct(_) | Transfer::Write(_) => Pairing::Empty,
        Transfer::Status => Pairing::Lower {
            register: false,
            lower: answer % 16,
        },
        Transfer::Read => Pairing::Lower {
            register: true,
            lower: answer % 16,
        },
    }
}

// The byte of two halves.
fn joined(upper: u8, lower: u8) -> u8
    ensures { result ≡ joined upper lower }
{
    upper % 16 * 16 + lower % 16
}

// A half byte as it stands on the wires.
fn raised(half: u8) -> u8
    ensures { result ≡ raised half }
{
    half % 16 * 16
}
