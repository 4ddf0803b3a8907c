// Functions for C or Rust to link, which crate `boundary_c` exports as they stand here: numbers and byte slices alone cross the border, so
// what this side has as types (a refusal, what is lent, a clock) crosses it by its parts. A state crosses it as 2,341 bytes, and its controls
// alone as 27 of them. Nothing is asked of a caller. Two panels on one wire are in `pair.rt`.
#![tactic(auto)]

mod pair;

ghost use Rattle.std.specs.Prelude.{◌≡◌};
ghost use Rattle.controller.specs.Memories.{memories};
ghost use Rattle.controller.specs.State.{numbering_of};
ghost use Rattle.picture.specs.Picture.{seen};
ghost use Rattle.picture.specs.Refusals.{drawing, drawn};
ghost use Rattle.sender.specs.Sender.{leaving, sent};
ghost use Rattle.state_bytes.specs.Packed.{unpacked};
ghost use Rattle.boundary.specs.Report.{report, fresh_replay};

use controller::controls::numbering;
use events::Made;
pub use pair::zifqarell_pair_bit;
use panel::Panel;
use picture::lent::Lent;
use playback::Halt;
use spelling::{last_bytes, spell_state};
use unpacking::unpack;

// Draws the picture of a state into the frame, and answers 0 or the refusal's number.
pub fn zifqarell_draw(
    text: &[u8; 128],
    glyph: &[u8; 128],
    graphic: &[u8; 2048],
    control: &[u8; 27],
    frame: &mut [u8],
    half: &[u8],
    full: &[u8],
    phase: bool,
) -> u8
    ensures { drawing result frame.new ≡ drawn (seen half.now full.now phase) (memories text.now glyph.now graphic.now) (unpacked control.now) frame.old }
{
    let lent = Lent { half, full, phase };
    refusals::number(&drawing::draw(text, glyph, graphic, unpack(control), frame, &lent))
}

// Puts the three bytes that carry a write over the serial link into the buffer, and answers 0 or the refusal's number.
pub fn zifqarell_send(register: bool, byte: u8, buffer: &mut [u8]) -> u8
    ensures { leaving result buffer.new ≡ sent register byte buffer.old }
{
    refusals::number(&sender::send(register, byte, buffer))
}

// Replays a capture on a fresh panel, with or without time, by the old numbering or the new (`by160`), and answers the number with which
// that stopped, 0 at the end of the capture. Leaves the state in which the panel then is, and the place with what the last accepted
// record answered. Refused with 1, 2 or 3 it leaves all that it was lent.
#[tactic(auto, unfolding(crate::specs::Report::fresh_replay))]
pub fn zifqarell_replay(
    parallel: bool,
    time: bool,
    by160: bool,
    capture: &[u8],
    frame: &mut [u8],
    half: &[u8],
    full: &[u8],
    phase: bool,
    state: &mut [u8; 2341],
    last: &mut [u8; 11],
) -> u8
    ensures { report result frame.new state.new last.new ≡ fresh_replay (record { parallel = parallel; time = time; numbering = numbering_of by160 }) (seen half.now full.now phase) capture.now frame.old state.old last.old }
{
    let lent = Lent { half, full, phase };
    if let Err(refusal) = lent.check_lengths(frame.len()) {
        return refusal.into();
    }
    let fresh = Panel::fresh(Made {
        parallel,
        time,
        numbering: numbering(by160),
    });
    let stop = playback::replay(fresh, capture, frame, &lent);
    spell_state(stop.panel, state);
    *last = last_bytes(stop.place, stop.reply, stop.count);
    match stop.halt {
        Halt::Refused(refusal) => refusal.into(),
        Halt::End | Halt::Full => 0,
    }
}
