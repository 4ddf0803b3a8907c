// The controls that 27 bytes spell, in the order in which `unpacked` reads them. A byte that is out of range counts by the bits that it
// should have; of the time that remains all 16 count, and more than a panel's longest counts as that.
#![tactic(auto)]

use controller::controls::numbering;
use controller::{Control, Entry, Function, Place, Shown, Time, View};
use table::Target;

mod link;

ghost use Rattle.std.specs.Prelude.{◌≡◌};
ghost use Rattle.state_bytes.specs.Packed.{flag, target_from, counter_from, time_from, place_from, view_from, unpacked};

pub use link::unpack_link;

pub(crate) fn flag(byte: u8) -> bool
    ensures { result ≡ flag byte }
{
    byte % 2 == 1
}

fn target(byte: u8) -> Target
    ensures { result ≡ target_from byte }
{
    match byte % 4 {
        0 => Target::Text,
        1 => Target::Glyph,
        _ => Target::Graphic,
    }
}

// The counter has 6 bits for text and glyph memory, 4 for graphic memory.
fn counter(target: Target, byte: u8) -> u8
    ensures { result ≡ counter_from target byte }
{
    match target {
        Target::Text | Target::Glyph => byte % 64,
        Target::Graphic => byte % 16,
    }
}

fn time(timed: u8, high: u8, low: u8) -> Time
    ensures { result ≡ time_from timed high low }
{
    let timed = flag(timed);
    let longest = if timed { 1600 } else { 0 };
    Time {
        timed,
        remaining: u16::from_be_bytes([high, low]).min(longest),
    }
}

#[tactic(auto, unfolding(state_bytes::specs::Packed::place_from))]
fn place(bytes: &[u8; 27]) -> Place
    ensures { result ≡ place_from bytes.now }
{
    let target = target(bytes[0]);
    Place {
        target,
        counter: counter(target, bytes[1]),
        row: bytes[2] % 64,
        low: flag(bytes[3]),
        dummy: flag(bytes[4]),
        waiting: flag(bytes[5]).then_some(bytes[6] % 64),
    }
}

#[tactic(auto, unfolding(state_bytes::specs::Packed::view_from))]
fn view(bytes: &[u8; 27]) -> View
    ensures { result ≡ view_from bytes.now }
{
    View {
        scroll: bytes[17] % 64,
        shift: bytes[18] % 16,
        reversed: [
            flag(bytes[19]),
            flag(bytes[20]),
            flag(bytes[21]),
            flag(bytes[22]),
        ],
        numbering: numbering(flag(bytes[26])),
    }
}

#[tactic(auto, unfolding(state_bytes::specs::Packed::unpacked))]
pub fn unpack(bytes: &[u8; 27]) -> Control
    ensures { result ≡ unpacked bytes.now }
{
    Control {
        place: place(bytes),
        entry: Entry {
            id: flag(bytes[7]),
            s: flag(bytes[8]),
        },
        shown: Shown {
            display: flag(bytes[9]),
            cursor: flag(bytes[10]),
            blink: flag(bytes[11]),
        },
        function: Function {
            dl: flag(bytes[12]),
            re: flag(bytes[13]),
            g: flag(bytes[14]),
        },
        sr: flag(bytes[15]),
        view: view(bytes),
        standby: flag(bytes[16]),
        time: time(bytes[23], bytes[24], bytes[25]),
    }
}
