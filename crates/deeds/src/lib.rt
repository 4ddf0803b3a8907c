// What reaches the controller is done here, and nowhere else: each transfer whole, reset, and time that passes, on lent memories. They are
// three parameters, as crate `calls` says.
#![tactic(auto)]

ghost use Rattle.std.specs.Prelude.{◌≡◌, List, ℕ};
ghost use Rattle.controller.specs.Memories.{memories};
ghost use Rattle.controller.specs.State.{InRange};
ghost use Rattle.controller.specs.Instructions.{cleared};
ghost use Rattle.deeds.specs.Transfers.{acted, executed, written, read_out, status_read, carried_out, nothing_done, at_cost, on_time, restarted, performed};

use controller::data::{find, store};
use controller::named::{instruction_names, read_names, write_names};
use controller::{Control, Region};
use events::{Deed, Made, Transfer};
use instructions::obey;
use table::Touch;
use time::{busy_bit, charged, cost, elapsed, is_lost};

// What a transfer leaves beside the memories: the next controls, the reply, and what it names.
#[derive(Clone, Copy)]
pub struct Done {
    pub control: Control,
    pub reply: u8,
    pub region: Region,
}

// Clear fills the text; no other instruction touches a memory.
fn clear(text: &mut [u8; 128], touch: Touch)
    ensures { text.new ≡ cleared touch text.old }
{
    match touch {
        Touch::Nothing => {}
        Touch::Counter => {}
        Touch::All => {}
        Touch::AllAndText => {
            *text = [0x20u8; 128];
        }
    }
}

// An instruction write. It is lent the text alone: whatever the other two memories hold, they stay.
#[tactic(auto, unfolding(crate::specs::Transfers::executed))]
fn execute(text: &mut [u8; 128], control: Control, byte: u8) -> Done
    requires { InRange control }
    ensures by_index { (glyph graphic : List ℕ) → acted (memories text.new glyph graphic) result ≡ executed (memories text.old glyph graphic) control byte }
    ensures valid { InRange result.control }
{
    let instruction = table::decode(control.modes(), byte);
    let touch = table::touches(instruction);
    clear(text, touch);
    let next = obey(control, instruction);
    let region = instruction_names(control, next, touch);
    Done {
        control: next,
        reply: 0,
        region,
    }
}

// A data write: the byte goes into the next half.
#[tactic(auto, unfolding(crate::specs::Transfers::written))]
fn write(
    text: &mut [u8; 128],
    glyph: &mut [u8; 128],
    graphic: &mut [u8; 2048],
    control: Control,
    byte: u8,
) -> Done
    requires { InRange control }
    ensures result_value { acted (memories text.new glyph.new graphic.new) result ≡ written (memories text.old glyph.old graphic.old) control byte }
    ensures valid { InRange result.control }
{
    store(text, glyph, graphic, control, byte);
    let next = control.moved_on();
    let region = write_names(control, next);
    Done {
        control: next,
        reply: 0,
        region,
    }
}

// A data read: 0 if a dummy is due, else the next half.
#[tactic(auto, unfolding(crate::specs::Transfers::read_out))]
fn read(text: &[u8; 128], glyph: &[u8; 128], graphic: &[u8; 2048], control: Control) -> Done
    requires { InRange control }
    ensures value { result ≡ read_out (memories text.now glyph.now graphic.now) control }
    ensures valid { InRange result.control }
{
    let place = control.place;
    if place.dummy {
        let next = control.dummy_read();
        return Done {
            control: next,
            reply: 0,
            region: Region::Nothing,
        };
    }
    let reply = find(text, glyph, graphic, control);
    let next = control.moved_on();
    let region = read_names(control, next);
    Done {
        control: next,
        reply,
        region,
    }
}

// A status read: the busy bit and the counter, and nothing changes.
#[tactic(auto, unfolding(crate::specs::Transfers::status_read))]
fn status(control: Control) -> Done
    requires { InRange control }
    ensures { result ≡ status_read control }
{
    Done {
        control,
        reply: busy_bit(control) + control.place.counter,
        region: Region::Nothing,
    }
}

// A whole transfer.
#[tactic(auto, unfolding(crate::specs::Transfers::carried_out))]
fn carry_out(
    text: &mut [u8; 128],
    glyph: &mut [u8; 128],
    graphic: &mut [u8; 2048],
    control: Control,
    transfer: Transfer,
) -> Done
    requires { InRange control }
    ensures { acted (memories text.new glyph.new graphic.new) result ≡ carried_out (memories text.old glyph.old graphic.old) control transfer }
{
    match transfer {
        Transfer::Instruct(byte) => execute(text, control, byte),
        Transfer::Write(byte) => write(text, glyph, graphic, control, byte),
        Transfer::Status => status(control),
        Transfer::Read => read(text, glyph, graphic, control),
    }
}

// Nothing is done.
fn nothing_done(control: Control) -> Done
    ensures { result ≡ nothing_done control }
{
    Done {
        control,
        reply: 0,
        region: Region::Nothing,
    }
}

// What was done, at what it costs.
fn at_cost(done: Done, cost: u16) -> Done
    ensures { result ≡ at_cost cost done }
{
    let control = done.control;
    let time = charged(control.time, cost);
    let mut next = done;
    next.control = control.with_time(time);
    next
}

// A transfer that would act: lost while busy, else carried out at its cost. A panel without time is spared the cost; there is one place where
// transfers are carried out, so that a compiler can put all of it here.
#[tactic(auto, unfolding(crate::specs::Transfers::on_time))]
fn on_time(
    text: &mut [u8; 128],
    glyph: &mut [u8; 128],
    graphic: &mut [u8; 2048],
    control: Control,
    transfer: Transfer,
) -> Done
    requires { InRange control }
    ensures { acted (memories text.new glyph.new graphic.new) result ≡ on_time (memories text.old glyph.old graphic.old) control transfer }
{
    if is_lost(control, transfer) {
        return nothing_done(control);
    }
    let done = carry_out(text, glyph, graphic, control, transfer);
    if !control.time.timed {
        return done;
    }
    at_cost(done, cost(control, transfer))
}

// Everything as fresh.
fn restart(
    text: &mut [u8; 128],
    glyph: &mut [u8; 128],
    graphic: &mut [u8; 2048],
    made: Made,
) -> Done
    ensures { acted (memories text.new glyph.new graphic.new) result ≡ restarted made }
{
    *text = [0x20u8; 128];
    *glyph = [0u8; 128];
    *graphic = [0u8; 2048];
    Done {
        control: Control::fresh(made),
        reply: 0,
        region: Region::Whole,
    }
}

// What of an event reaches the controller.
#[tactic(auto, unfolding(crate::specs::Transfers::performed))]
pub fn perform(
    text: &mut [u8; 128],
    glyph: &mut [u8; 128],
    graphic: &mut [u8; 2048],
    control: Control,
    deed: Deed,
) -> Done
    requires { InRange control }
    ensures { acted (memories text.new glyph.new graphic.new) result ≡ performed (memories text.old glyph.old graphic.old) control deed }
{
    match deed {
        Deed::Nothing => nothing_done(control),
        Deed::Whole(transfer) => on_time(text, glyph, graphic, control, transfer),
        Deed::Fresh(pin) => restart(text, glyph, graphic, control.remade(pin)),
        Deed::Pass(eights) => {
            let time = elapsed(control.time, eights);
            nothing_done(control.with_time(time))
        }
    }
}
