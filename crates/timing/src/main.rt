// Does one thing many times, to be timed from outside; the first argument says what: `text`, `images` or `graphic`, writes into that
// memory with their repaint, on lent memories; `value`, the text writes by the call by value; `copy`, a copy of the state alone;
// `draw`, the whole picture. Before the writes come the few transfers that make the screen.
// Prints a number that depends on all that was done, so that none of it can be left out.
#![tactic(auto)]

ghost use Rattle.std.specs.Prelude.{◌<◌, ◌≤◌, ◌≡◌, length};
ghost use Rattle.controller.specs.State.{InRange};
ghost use Rattle.calls.specs.State.{Valid};
ghost use Rattle.panel.specs.Handed.{state_of};

use calls::Kept;
use controller::Control;
use events::{Made, Numbering, Transfer};
use panel::Panel;
use picture::lent::Lent;
use std::rt::Env;

const TIMES: u32 = 1000000;

// What each call is lent.
const LENT: Lent<'static> = Lent {
    half: &[0; 2048],
    full: &[0; 32],
    phase: false,
};

// Cheap beside what is timed, also on a processor that divides by a loop.
fn mixed(sum: u32, with: usize) -> u32 {
    (sum % 65536) * 31 + (with % 65536) as u32
}

fn letter(i: u32) -> Transfer {
    Transfer::Write(0x21 + (i % 64) as u8)
}

// Display, cursor and blink on, from address 0.
fn text_turn(i: u32) -> Transfer {
    match i {
        0 => Transfer::Instruct(0x0F),
        1 => Transfer::Instruct(0x80),
        _ => letter(i),
    }
}

// A high half of 00h and a low half of 00h..0Fh, in turn: each cell shows an image.
fn image_half(i: u32) -> Transfer {
    if i % 2 == 0 {
        return Transfer::Write(0x00);
    }
    Transfer::Write((i / 2 % 16) as u8)
}

// All cells show images, then glyph memory is written from address 0.
fn images_turn(i: u32) -> Transfer {
    match i {
        0 => Transfer::Instruct(0x0F),
        1 => Transfer::Instruct(0x80),
        2..=129 => image_half(i),
        130 => Transfer::Instruct(0x40),
        _ => letter(i),
    }
}

// Graphic on, and its row 3 written over and over.
fn graphic_turn(i: u32) -> Transfer {
    match i {
        0 => Transfer::Instruct(0x0F),
        1 => Transfer::Instruct(0x34),
        2 => Transfer::Instruct(0x36),
        3 => Transfer::Instruct(0x83),
        4 => Transfer::Instruct(0x80),
        _ => letter(i),
    }
}

// What depends on the answers of a step that is done so many times.
fn summed<F: FnMut(u32) -> usize>(mut step: F) -> u32
    requires { F.IsAlwaysCallable step }
{
    let mut sum: u32 = 0;
    for i in 0..TIMES {
        sum = mixed(sum, step(i));
    }
    sum
}

// A parallel panel, without time.
fn made() -> Made {
    Made {
        parallel: true,
        time: false,
        numbering: Numbering::By96,
    }
}

fn by_value() -> u32 {
    let mut panel = Panel::fresh(made());
    let mut frame = [0u8; 1024];
    summed(
        |i|
            requires { Valid (state_of panel) }
            ensures { Valid (state_of panel.exit) }
        {
            match panel.transfer(text_turn(i), &mut frame, &LENT) {
                Ok(outcome) => {
                    panel = outcome.panel;
                    outcome.count
                }
                Err(_) => 0,
            }
        },
    )
}

fn on_lent<F: Fn(u32) -> Transfer>(turn: F) -> u32
    requires { (f : _) (i : _) → F.pre f i }
{
    let mut text = [0x20u8; 128];
    let mut glyph = [0u8; 128];
    let mut graphic = [0u8; 2048];
    let mut kept = Kept {
        control: Control::fresh(made()),
        link: links::idle(true),
    };
    let mut frame = [0u8; 1024];
    summed(
        |i|
            requires in_range { InRange kept.control }
            requires given { F.pre turn i }
            ensures { InRange kept.exit.control }
        {
            let answer = lent_calls::transfer(
                &mut text,
                &mut glyph,
                &mut graphic,
                kept,
                turn(i),
                &mut frame,
                &LENT,
            );
            match answer {
                Ok(outcome) => {
                    kept = outcome.kept;
                    outcome.count
                }
                Err(_) => 0,
            }
        },
    )
}

fn copied(panel: Panel, i: u32) -> Panel {
    let mut next = panel;
    let at = (i % 128) as usize;
    next.text[at] = (i % 128) as u8;
    next
}

fn copies() -> u32 {
    let mut panel = Panel::fresh(made());
    summed(|i| {
        panel = copied(panel, i);
        panel.text[3] as usize
    })
}

fn draws() -> u32 {
    let panel = Panel::fresh(made());
    let mut frame = [0u8; 1024];
    let mut control = panel.control;
    control.shown.display = true;
    summed(|i| {
        let lent = Lent {
            phase: i % 2 == 1,
            ..LENT
        };
        let drawn = drawing::draw(
            &panel.text,
            &panel.glyph,
            &panel.graphic,
            control,
            &mut frame,
            &lent,
        );
        usize::from(refusals::number(&drawn))
    })
}

fn main(rt: HostRuntime) {
    let mut word = [0u8; 16];
    // A longer word leaves its beginning there.
    let _ = rt.arg(1, &mut word);
    // One letter, one thing: an enum of the letters would be made here only to be taken apart here.
    let sum = match word[0] {
        b'v' => by_value(),
        b't' => on_lent(text_turn),
        b'i' => on_lent(images_turn),
        b'g' => on_lent(graphic_turn),
        b'c' => copies(),
        b'd' => draws(),
        _ => 0,
    };
    let _ = println!(rt; "{sum}");
}
