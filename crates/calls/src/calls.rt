// A call on memories that the caller keeps and lends, for a board where a serial link brings one for every bit. It leaves what the call
// by value leaves.
//
// The three memories stay three parameters: C lends them apart, and a struct that holds them as `&mut` would have each clause say besides
// which loans its fields are.
ghost use Rattle.std.specs.Prelude.{◌≡◌, length, IfOk};
ghost use Rattle.controller.specs.Memories.{memories};
ghost use Rattle.controller.specs.State.{InRange};
ghost use Rattle.deeds.specs.Transfers.{acted};
ghost use Rattle.picture.specs.Lent.{seen_by};
ghost use Rattle.repaint.specs.Repaint.{RegionWithin};
ghost use Rattle.calls.specs.State.{kept_state};
ghost use Rattle.calls.specs.Calls.{accepted, timeless, called, left_accepted, left};

use crate::{Kept, LentOutcome};
use controller::Control;
use deeds::{Done, perform};
use events::Event;
use links::Rest;
use picture::lent::Lent;
use refusals::Refusal;
use regions::paint;

// An accepted call: what it names is painted and counted, and the answer goes back.
fn show(
    text: &[u8; 128],
    glyph: &[u8; 128],
    graphic: &[u8; 2048],
    done: Done,
    rest: Rest,
    frame: &mut [u8; 1024],
    lent: &Lent,
) -> LentOutcome
    requires { InRange done.control × RegionWithin done.region × (length lent.now.half.now ≡ 2048) }
    ensures { left_accepted result (memories text.now glyph.now graphic.now) frame.new ≡ accepted (seen_by lent.now) frame.old (acted (memories text.now glyph.now graphic.now) done) rest }
{
    let control = done.control;
    let scene = lent.scene(text, glyph, graphic, control);
    let count = paint(&scene, done.region, frame);
    let replied = links::reply(rest, done.reply);
    LentOutcome {
        kept: Kept {
            control,
            link: replied.link,
        },
        reply: replied.reply,
        count,
    }
}

// Whether time is to pass on a panel that has none.
fn timeless(control: Control, event: Event) -> bool
    ensures { result ≡ timeless control event }
{
    matches!(event, Event::Pass(_)) && !control.time.timed
}

// An event comes to the panel.
pub fn call(
    text: &mut [u8; 128],
    glyph: &mut [u8; 128],
    graphic: &mut [u8; 2048],
    kept: Kept,
    event: Event,
    frame: &mut [u8],
    lent: &Lent,
) -> Result<LentOutcome, Refusal>
    requires { InRange kept.control }
    ensures leaves { left kept result (memories text.new glyph.new graphic.new) frame.new ≡ called (seen_by lent.now) (kept_state (memories text.old glyph.old graphic.old) kept) frame.old event }
    ensures valid { IfOk result (λ answer. InRange answer.kept.control) }
{
    lent.check_lengths(frame.len())?;
    let control = kept.control;
    if timeless(control, event) {
        return Err(Refusal::Kind);
    }
    let Some(carried) = links::take(control.function.dl, kept.link, event) else {
        return Err(Refusal::OtherLink);
    };
    let done = perform(text, glyph, graphic, control, carried.deed);
    let frame = frame.as_mut_array::<1024>().unwrap();
    Ok(show(text, glyph, graphic, done, carried.rest, frame, lent))
}
