// Replays a capture from standard input, and prints a line for each accepted record and one for the end. With `--time` the panel has time.
// What is read and written is no matter of a contract; the lines are those of `playback`. What fails is said on standard
// error, where it fails, and is never taken for the end of the capture.
#![tactic(auto)]

ghost use Rattle.std.specs.Prelude.{◌+◌, ◌/◌, ◌≡◌, IfOk, length};
ghost use Rattle.calls.specs.State.{Valid};
ghost use Rattle.panel.specs.Handed.{state_of};
ghost use Rattle.playback.specs.declared.Halt.TheVariants as halt;

use events::{Made, Numbering};
use host::{Filled, fail, fill, say, word_count, word_if_any};
use panel::Panel;
use picture::lent::Lent;
use playback::{Halt, Stop};
use refusals::Refusal;
use std::io;

// How far the replay came with a part, and what was read for it.
#[derive(Clone, Copy)]
struct Came {
    stop: Stop,
    read: Filled,
}

// A parallel panel, with time or without.
fn made(time: bool) -> Made {
    Made {
        parallel: true,
        time,
        numbering: Numbering::By96,
    }
}

// The panel that the words ask for, by the one argument that there is; none where there are others, which has been said.
fn from_arguments(rt: &HostRuntime) -> Option<Made> {
    let count = word_count(rt);
    if count < 2 {
        return Some(made(false));
    }
    let mut room = [0u8; 4096];
    match word_if_any(rt, 1, &mut room) {
        Some(b"--time") if count == 2 => Some(made(true)),
        _ => {
            say(rt, b"replay: the only argument is --time\n");
            None
        }
    }
}

// Room for the lines of a part.
fn large_buffer() -> [u8; 65536]
    ensures { 65536 ≡ length result }
{
    [0; 65536]
}

// Standard output did not take what there was for it.
fn unwritten(rt: &HostRuntime, error: io::Error) {
    fail(&rt.stderr(), b"replay: standard output", error);
}

// One part of the capture: 4,096 bytes, so that no record lies across two parts, or what is left. Its lines, of at most 29
// bytes each, fit into 65,536 bytes.
fn part(rt: &HostRuntime, panel: Panel, place: usize, frame: &mut [u8; 1024]) -> io::Result<Came>
    requires { Valid (state_of panel) }
    ensures valid { IfOk result (λ came. Valid (state_of came.stop.panel)) }
    ensures through { IfOk result (λ came. came.stop.halt ≡ halt.End → came.stop.place ≡ place + came.read.count / 4) }
{
    let lent = Lent {
        half: &[0; 2048],
        full: &[],
        phase: false,
    };
    let mut input = [0u8; 4096];
    let read = fill(&mut rt.stdin(), &mut input);
    if let Some(error) = read.failure {
        fail(&rt.stderr(), b"replay: standard input", error);
    }
    let mut text = large_buffer();
    let capture = &input[..read.count];
    let stop = playback::transcribe(panel, place, capture, frame, &lent, &mut text);
    rt.stdout().write_all(&text[..stop.filled])?;
    Ok(Came { stop, read })
}

// The last line. The program's status says nothing: that a record was refused is said on standard error too, for `./run`.
fn print_last(rt: &HostRuntime, place: usize, answer: Result<(), Refusal>) {
    let mut text = [0u8; 48];
    let n = printed::put_last(&mut text, place, refusals::number(&answer));
    if let Err(error) = rt.stdout().write_all(&text[..n]) {
        unwritten(rt, error);
    }
    if answer.is_err() {
        say(rt, b"replay: stopped\n");
    }
}

// Part after part. A refusal stops the replay also where the read after it failed.
fn main(rt: HostRuntime) {
    let Some(made) = from_arguments(&rt) else {
        return;
    };
    let mut frame = [0u8; 1024];
    let mut panel = Panel::fresh(made);
    let mut place: usize = 0;
    // Until the capture ends or stops: nothing is counted.
    loop {
        let came = match part(&rt, panel, place, &mut frame) {
            Ok(came) => came,
            Err(error) => return unwritten(&rt, error),
        };
        panel = came.stop.panel;
        place = came.stop.place;
        match came.stop.halt {
            Halt::Refused(refusal) => return print_last(&rt, place, Err(refusal)),
            // That has been said.
            _ if came.read.failure.is_some() => return,
            Halt::Full => return say(&rt, b"replay: too many records\n"),
            Halt::End if came.read.count < 4096 => return print_last(&rt, place, Ok(())),
            Halt::End => {}
        }
    }
}
