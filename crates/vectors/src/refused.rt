// Every refusal of the panel's calls. Beside a refusal it is printed how much of the lent frame was changed, and what a right call then
// answers on the panel that there is still.
ghost use Rattle.std.specs.Prelude.{◌≤◌, IfOk};
ghost use Rattle.calls.specs.State.{Valid};
ghost use Rattle.panel.specs.Handed.{state_of};

use crate::readings::{RIGHT, after, fresh, print_state, told, transferred};
use crate::saying::print;
use events::{Numbering, Pin, Transfer};
use panel::{Outcome, Panel};
use picture::lent::Lent;
use refusals::Refusal;

// What a frame holds before the refused calls. A panel whose display is off paints zeros.
const UNTOUCHED: u8 = 0xAA;

// What drawing a fresh panel into the frame answers.
pub(crate) fn print_drawing(rt: &HostRuntime, frame: &mut [u8]) {
    let number = refusals::number(&fresh(true).draw(frame, &RIGHT));
    let length = frame.len();
    let _ = println!(rt; "{length} {number}");
}

// A serial bit with right buffers.
fn shifted(panel: Panel, given: bool) -> Result<Outcome, Refusal>
    requires { Valid (state_of panel) }
    ensures { IfOk result (λ outcome. Valid (state_of outcome.panel)) }
{
    panel.bit(given, &mut [0; 1024], &RIGHT)
}

// A panel of the parallel link that has written 2Dh to the high half of word 0.
fn half_written() -> Panel
    ensures { Valid (state_of result) }
{
    let panel = fresh(true);
    after(panel, transferred(panel, Transfer::Write(0x2D))).panel
}

// A panel of the serial link that has heard all bits of a write of 2Dh but the last.
fn nearly_written() -> Panel
    ensures { Valid (state_of result) }
{
    let mut panel = fresh(false);
    for shift in (1..24u32).rev() {
        panel = after(panel, shifted(panel, 0xFA20D0u32 >> shift & 1 == 1)).panel;
    }
    panel
}

// How many bytes calls have painted.
fn changed(frame: &[u8]) -> usize {
    frame.iter().filter(|byte| **byte != UNTOUCHED).count()
}

// Every call in turn on one panel, each handing it to the next: a transfer, a bit, chip select low, time that passes on a panel without
// time, and reset; then the picture drawn afresh.
fn knock(rt: &HostRuntime, first: Panel, parallel: bool, frame: &mut [u8], lent: &Lent) -> Panel
    requires { Valid (state_of first) }
    ensures { Valid (state_of result) }
{
    let pin = Pin {
        parallel,
        numbering: Numbering::By96,
    };
    let mut panel = first;
    let read = panel.transfer(Transfer::Read, frame, lent);
    panel = told(rt, b"transfer ", panel, read);
    let bit = panel.bit(false, frame, lent);
    panel = told(rt, b", bit ", panel, bit);
    let low = panel.select_low(frame, lent);
    panel = told(rt, b", select-low ", panel, low);
    let passed = panel.pass(1, frame, lent);
    panel = told(rt, b", pass ", panel, passed);
    let reset = panel.reset(pin, frame, lent);
    panel = told(rt, b", reset ", panel, reset);
    let number = refusals::number(&panel.draw(frame, lent));
    let count = changed(frame);
    let _ = print!(rt; ", draw {number}; changed {count}");
    panel
}

// A parallel panel that has written half a word.
fn on_parallel(rt: &HostRuntime, frame: &mut [u8], lent: &Lent) {
    print(rt, b"  parallel: ");
    let last = knock(rt, half_written(), true, frame, lent);
    let read = transferred(last, Transfer::Read);
    print_state(rt, told(rt, b"; then read ", last, read));
}

// A serial panel that has heard all bits of a write but the last.
fn on_serial(rt: &HostRuntime, frame: &mut [u8], lent: &Lent) {
    print(rt, b"  serial: ");
    let last = knock(rt, nearly_written(), false, frame, lent);
    let bit = shifted(last, false);
    print_state(rt, told(rt, b"; then bit ", last, bit));
}

// Long buffers come from functions, so that a proof knows their lengths alone and never writes them out.
fn long_frame() -> [u8; 65536] {
    [UNTOUCHED; 65536]
}

fn long_full_font() -> [u8; 281632] {
    [0; 281632]
}

// Every call with buffers of these lengths.
fn every_call(rt: &HostRuntime, n: usize, h: usize, f: usize)
    requires { (n ≤ 65536) × (h ≤ 2049) × (f ≤ 281632) }
{
    let half = [0u8; 2049];
    let full = long_full_font();
    let lent = Lent {
        half: &half[..h],
        full: &full[..f],
        phase: false,
    };
    let _ = println!(rt; "frame {n}, half {h}, full {f}");
    on_parallel(rt, &mut long_frame()[..n], &lent);
    on_serial(rt, &mut long_frame()[..n], &lent);
}

pub(crate) fn refusals(rt: &HostRuntime) {
    every_call(rt, 1024, 2048, 0);
    every_call(rt, 1024, 2048, 32);
    every_call(rt, 1024, 2048, 267296);
    every_call(rt, 1024, 2048, 281600);
    every_call(rt, 0, 2048, 32);
    every_call(rt, 1023, 2048, 32);
    every_call(rt, 1025, 2048, 32);
    every_call(rt, 65536, 2048, 32);
    every_call(rt, 1024, 0, 32);
    every_call(rt, 1024, 2047, 32);
    every_call(rt, 1024, 2049, 32);
    wrong_full_fonts(rt);
}

fn wrong_full_fonts(rt: &HostRuntime) {
    every_call(rt, 1024, 2048, 31);
    every_call(rt, 1024, 2048, 33);
    every_call(rt, 1024, 2048, 281599);
    every_call(rt, 1024, 2048, 281601);
    every_call(rt, 1024, 2048, 281632);
    every_call(rt, 1023, 2047, 32);
    every_call(rt, 1023, 2048, 33);
    every_call(rt, 1024, 2047, 33);
    every_call(rt, 1023, 2047, 33);
}
