// What each entry of the instruction table does to the controls.
#![tactic(auto)]

ghost use Rattle.std.specs.Prelude.{◌≡◌};
ghost use Rattle.controller.specs.State.{InRange};
ghost use Rattle.controller.specs.Instructions.{pointed, with_waiting, graphic_addressed, home, set_function, reverse_toggled, obeyed};

use controller::controls::stepped;
use controller::{Control, Entry, Function, Place, Shown, View};
use table::{Instruction, Target};

// An address just set: the high half next, and a dummy read due.
fn pointed(target: Target, counter: u8, row: u8) -> Place
    ensures { result ≡ pointed target counter row }
{
    Place {
        target,
        counter,
        row,
        low: false,
        dummy: true,
        waiting: None,
    }
}

// The place with another waiting row, or none.
fn with_waiting(place: Place, waiting: Option<u8>) -> Place
    ensures { result ≡ with_waiting waiting place }
{
    Place { waiting, ..place }
}

// A graphic address: a row, which waits, or the column of the row that waits.
fn graphic_addressed(place: Place, address: u8) -> Place
    ensures { result ≡ graphic_addressed place.waiting place address }
{
    match place.waiting {
        None => with_waiting(place, Some(address % 64)),
        Some(row) => pointed(Target::Graphic, address % 16, row),
    }
}

// If RE is to change, only RE changes; G changes in the extended set alone.
fn set_function(function: Function, dl: bool, re: bool, g: bool) -> Function
    ensures { result ≡ set_function function dl re g }
{
    let mut next = function;
    if function.re {
        if re {
            return Function { dl, re, g };
        }
        next.re = false;
        return next;
    }
    if re {
        next.re = true;
        return next;
    }
    next.dl = dl;
    next
}

// The reverse of line bits 1..0 is toggled.
fn reverse_toggled(view: View, byte: u8) -> View
    ensures { result ≡ reverse_toggled byte view }
{
    let mut next = view;
    let at = usize::from(byte % 4);
    next.reversed[at] = !next.reversed[at];
    next
}

// Target text, counter 0, shift 0.
fn home(control: Control) -> Control
    ensures { result ≡ home control }
{
    let mut next = control;
    next.place = pointed(Target::Text, 0, control.place.row);
    next.view.shift = 0;
    next
}

// What an entry of the table makes of the controls.
#[tactic(auto, unfolding(controller::specs::Instructions::obeyed))]
pub fn obey(control: Control, instruction: Instruction) -> Control
    requires { InRange control }
    ensures { result ≡ obeyed control instruction }
{
    let place = control.place;
    let view = control.view;
    let mut next = control;
    // An executed instruction drops a waiting row and ends standby.
    next.place = with_waiting(place, None);
    next.standby = false;
    match instruction {
        Instruction::Ignored => return control,
        Instruction::Clear => {
            next = home(next);
            next.entry.id = true;
        }
        Instruction::Home => next = home(next),
        Instruction::EntryMode { id, s } => next.entry = Entry { id, s },
        Instruction::Display {
            display,
            cursor,
            blink,
        } => {
            next.shown = Shown {
                display,
                cursor,
                blink,
            };
        }
        Instruction::MoveCursor { right } => {
            let counter = stepped(right, place.counter);
            next.place = pointed(Target::Text, counter, place.row);
        }
        Instruction::MoveDisplay { right } => next.view = view.display_moved(right),
        Instruction::FunctionSet { dl, re, g } => {
            next.function = set_function(control.function, dl, re, g);
        }
        Instruction::GlyphAddress(address) => {
            next.place = pointed(Target::Glyph, address, place.row);
        }
        Instruction::TextAddress(address) => {
            next.place = pointed(Target::Text, address, place.row);
        }
        Instruction::Standby => next.standby = true,
        Instruction::SetSr(sr) => next.sr = sr,
        Instruction::ToggleReverse(byte) => next.view = reverse_toggled(view, byte),
        Instruction::Scroll(rows) => next.view.scroll = rows,
        Instruction::GraphicAddress(address) => {
            next.place = graphic_addressed(place, address);
        }
    }
    next
}
