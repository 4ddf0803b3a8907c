// The replay of a capture, with or without its lines: one loop.
ghost use Rattle.std.specs.Prelude.{false, [], ◌≡◌, length};
ghost use Rattle.refusals.specs.Numbers.{answer_number};
ghost use Rattle.picture.specs.Lent.{seen_by};
ghost use Rattle.calls.specs.State.{Valid};
ghost use Rattle.panel.specs.Handed.{state_of};
ghost use Rattle.printed.specs.Text.{Counts};
ghost use Rattle.playback.specs.Replay.{room_of, replayed};
ghost use Rattle.playback.specs.Transcript.{told, replayed_silently, transcribed, halt_number, is_full, left_by};

use crate::telling::{Lines, Silent, Told};
use crate::{Halt, Stop};
use capture::{Answer, taken_with};
use panel::Panel;
use picture::lent::Lent;
use printed::RecordAnswer;
use records::obey;

// Why a replay halts where no record stands.
fn halt_at(answer: Answer) -> Halt
    ensures number { halt_number result ≡ answer_number answer }
    ensures full { is_full result ≡ false }
{
    match answer {
        Ok(_) => Halt::End,
        Err(refusal) => Halt::Refused(refusal),
    }
}

// Record after record, until the first that is refused, or that has no room for its line where lines are told.
#[tactic(auto, unfolding(crate::specs::Replay::replayed))]
fn run<L: Lines>(
    panel: Panel,
    place: usize,
    capture: &[u8],
    frame: &mut [u8],
    lent: &Lent,
    text: &mut [u8],
) -> Stop
    requires valid { Valid (state_of panel) }
    requires silent { L.telling ≡ false → place ≡ 0 }
    ensures leaves { left_by result frame.new text.new ≡ told L.telling place text.old (replayed (seen_by lent.now) (room_of L.telling (length text.old)) capture.now (state_of panel) frame.old place) }
    ensures valid { Valid (state_of result.panel) }
    ensures counts { Counts result.filled text.new }
{
    let mut stop = Stop {
        panel,
        place,
        halt: Halt::End,
        reply: 0,
        count: 0,
        filled: 0,
    };
    if let Err(refusal) = lent.check_lengths(frame.len()) {
        stop.halt = Halt::Refused(refusal);
        return stop;
    }
    let mut at: usize = 0;
    // It counts nothing: it ends by what it finds, and the document asks for such a loop.
    loop {
        let step = reader::record_at(capture, at);
        let answer = taken_with(step.answer, stop.panel.control.time.timed);
        let Ok(Some(given)) = answer else {
            let halt = halt_at(answer);
            break Stop { halt, ..stop };
        };
        if !L::room_for(text.len() - stop.filled, stop.place) {
            let halt = Halt::Full;
            break Stop { halt, ..stop };
        }
        let answered = match obey(&mut stop.panel, given, frame, lent) {
            Ok(answered) => answered,
            Err(why) => {
                let halt = Halt::Refused(why);
                break Stop { halt, ..stop };
            }
        };
        let answer = RecordAnswer {
            kind: given.kind,
            reply: answered.reply,
            count: answered.count,
        };
        stop.filled = L::tell(text, stop.filled, stop.place, answer);
        stop.place += 1;
        stop.reply = answered.reply;
        stop.count = answered.count;
        at = step.next;
    }
}

// Replays a capture until the first refusal: the records before it stand, and it has no effect itself.
pub fn replay(panel: Panel, capture: &[u8], frame: &mut [u8], lent: &Lent) -> Stop
    requires { Valid (state_of panel) }
    ensures leaves { left_by result frame.new [] ≡ replayed_silently (seen_by lent.now) capture.now (state_of panel) frame.old }
    ensures valid { Valid (state_of result.panel) }
{
    run::<Silent>(panel, 0, capture, frame, lent, &mut [])
}

// Replays a capture as `replay` does, from a number of accepted records on, and writes their lines from the beginning of the
// buffer on. Where the buffer might have no room for one more line it stops before that record, and says so; the place in the
// answer says how many records there are now. `counts` serves whoever lends the lines on.
#[tactic(auto, unfolding(crate::specs::Transcript::transcribed))]
pub fn transcribe(
    panel: Panel,
    place: usize,
    capture: &[u8],
    frame: &mut [u8],
    lent: &Lent,
    text: &mut [u8],
) -> Stop
    requires { Valid (state_of panel) }
    ensures leaves { left_by result frame.new text.new ≡ transcribed (seen_by lent.now) capture.now (state_of panel) frame.old place text.old }
    ensures valid { Valid (state_of result.panel) }
    ensures counts { Counts result.filled text.new }
{
    run::<Told>(panel, place, capture, frame, lent, text)
}
