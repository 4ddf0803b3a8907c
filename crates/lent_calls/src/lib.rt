// The calls that a board makes, after document 01, on memories that it keeps and lends: each is `call` with its event. They are the
// document's calls, by its names, and so no one function with a parameter for the event.
#![tactic(auto)]

ghost use Rattle.std.specs.Prelude.{◌≡◌, IfOk};
ghost use Rattle.controller.specs.Memories.{memories};
ghost use Rattle.controller.specs.State.{InRange};
ghost use Rattle.events.specs.declared.Event.TheVariants as event;
ghost use Rattle.picture.specs.Lent.{seen_by};
ghost use Rattle.calls.specs.State.{kept_state};
ghost use Rattle.calls.specs.Calls.{called, left};

use calls::{Kept, LentOutcome, call};
use events::{Event, Pin, Transfer};
use picture::lent::Lent;
use refusals::Refusal;

// A transfer of the parallel link.
pub fn transfer(
    text: &mut [u8; 128],
    glyph: &mut [u8; 128],
    graphic: &mut [u8; 2048],
    kept: Kept,
    given: Transfer,
    frame: &mut [u8],
    lent: &Lent,
) -> Result<LentOutcome, Refusal>
    requires { InRange kept.control }
    ensures leaves { left kept result (memories text.new glyph.new graphic.new) frame.new ≡ called (seen_by lent.now) (kept_state (memories text.old glyph.old graphic.old) kept) frame.old (event.Transfer given) }
    ensures valid { IfOk result (λ answer. InRange answer.kept.control) }
{
    let transfer = Event::Transfer(given);
    call(text, glyph, graphic, kept, transfer, frame, lent)
}

// One bit of the serial link, with chip select high.
pub fn bit(
    text: &mut [u8; 128],
    glyph: &mut [u8; 128],
    graphic: &mut [u8; 2048],
    kept: Kept,
    given: bool,
    frame: &mut [u8],
    lent: &Lent,
) -> Result<LentOutcome, Refusal>
    requires { InRange kept.control }
    ensures leaves { left kept result (memories text.new glyph.new graphic.new) frame.new ≡ called (seen_by lent.now) (kept_state (memories text.old glyph.old graphic.old) kept) frame.old (event.Bit given) }
    ensures valid { IfOk result (λ answer. InRange answer.kept.control) }
{
    let bit = Event::Bit(given);
    call(text, glyph, graphic, kept, bit, frame, lent)
}

// Chip select low on the serial link.
pub fn select_low(
    text: &mut [u8; 128],
    glyph: &mut [u8; 128],
    graphic: &mut [u8; 2048],
    kept: Kept,
    frame: &mut [u8],
    lent: &Lent,
) -> Result<LentOutcome, Refusal>
    requires { InRange kept.control }
    ensures leaves { left kept result (memories text.new glyph.new graphic.new) frame.new ≡ called (seen_by lent.now) (kept_state (memories text.old glyph.old graphic.old) kept) frame.old event.SelectLow }
    ensures valid { IfOk result (λ answer. InRange answer.kept.control) }
{
    let low = Event::SelectLow;
    call(text, glyph, graphic, kept, low, frame, lent)
}

// Reset with the interface pin and the numbering that it chooses, on either link.
pub fn reset(
    text: &mut [u8; 128],
    glyph: &mut [u8; 128],
    graphic: &mut [u8; 2048],
    kept: Kept,
    pin: Pin,
    frame: &mut [u8],
    lent: &Lent,
) -> Result<LentOutcome, Refusal>
    requires { InRange kept.control }
    ensures leaves { left kept result (memories text.new glyph.new graphic.new) frame.new ≡ called (seen_by lent.now) (kept_state (memories text.old glyph.old graphic.old) kept) frame.old (event.Reset pin) }
    ensures valid { IfOk result (λ answer. InRange answer.kept.control) }
{
    let reset = Event::Reset(pin);
    call(text, glyph, graphic, kept, reset, frame, lent)
}

// So many times 8 microseconds pass, on either link.
pub fn pass(
    text: &mut [u8; 128],
    glyph: &mut [u8; 128],
    graphic: &mut [u8; 2048],
    kept: Kept,
    eights: u8,
    frame: &mut [u8],
    lent: &Lent,
) -> Result<LentOutcome, Refusal>
    requires { InRange kept.control }
    ensures leaves { left kept result (memories text.new glyph.new graphic.new) frame.new ≡ called (seen_by lent.now) (kept_state (memories text.old glyph.old graphic.old) kept) frame.old (event.Pass eights) }
    ensures valid { IfOk result (λ answer. InRange answer.kept.control) }
{
    let pass = Event::Pass(eights);
    call(text, glyph, graphic, kept, pass, frame, lent)
}
