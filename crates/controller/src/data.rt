// Data transfers: where they go, and how place and view move on.
ghost use Rattle.std.specs.Prelude.{◌≡◌, ◌<◌};
ghost use Rattle.controller.specs.Memories.{memories};
ghost use Rattle.controller.specs.State.{InRange, limit};
ghost use Rattle.controller.specs.Data.{stored, found, next_counter, counter_after, moved, completes, shifts, moved_on, dummy_read};

use crate::controls::stepped;
use crate::places::{graphic_place, word_place};
use crate::{Control, Place};
use table::Target;

// The byte goes into the next half of the target's memory. The memories are three parameters here and above, as crate `calls` says.
#[tactic(auto, unfolding(crate::specs::Data::stored))]
pub fn store(
    text: &mut [u8; 128],
    glyph: &mut [u8; 128],
    graphic: &mut [u8; 2048],
    control: Control,
    byte: u8,
)
    requires { InRange control }
    ensures { memories text.new glyph.new graphic.new ≡ stored control.place.target control.place byte (memories text.old glyph.old graphic.old) }
{
    let place = control.place;
    match place.target {
        Target::Text => text[word_place(place.counter, place.low)] = byte,
        Target::Glyph => glyph[word_place(place.counter, place.low)] = byte,
        Target::Graphic => graphic[graphic_place(place.row, place.counter, place.low)] = byte,
    }
}

// The next half of the target's memory.
#[tactic(auto, unfolding(crate::specs::Data::found))]
pub fn find(text: &[u8; 128], glyph: &[u8; 128], graphic: &[u8; 2048], control: Control) -> u8
    requires { InRange control }
    ensures { result ≡ found control.place.target control.place (memories text.now glyph.now graphic.now) }
{
    let place = control.place;
    match place.target {
        Target::Text => text[word_place(place.counter, place.low)],
        Target::Glyph => glyph[word_place(place.counter, place.low)],
        Target::Graphic => graphic[graphic_place(place.row, place.counter, place.low)],
    }
}

// The counter after a whole word.
fn next_counter(target: Target, id: bool, counter: u8) -> u8
    requires { counter < limit target }
    ensures { result ≡ next_counter target id counter }
{
    match target {
        Target::Text | Target::Glyph => stepped(id, counter),
        Target::Graphic => stepped(true, counter) % 16,
    }
}

impl Place {
    // The counter after this half: the low half completes a word.
    fn counter_after(self, id: bool) -> u8
        requires { self.counter < limit self.target }
        ensures { result ≡ counter_after id self }
    {
        if self.low {
            return next_counter(self.target, id, self.counter);
        }
        self.counter
    }

    // The place after a half has been written or read. Field by field, here and below: by `..self` a place is copied whole, and read again in
    // pieces before that is done.
    #[tactic(auto, unfolding(crate::specs::Data::moved))]
    fn moved(self, id: bool) -> Place
        requires { self.counter < limit self.target }
        ensures { result ≡ moved id self }
    {
        let waiting = None;
        Place {
            target: self.target,
            counter: self.counter_after(id),
            row: self.row,
            low: !self.low,
            dummy: self.dummy,
            waiting,
        }
    }

    // Whether a text word completes with this half.
    pub(crate) fn completes(self) -> bool
        ensures { result ≡ completes self }
    {
        self.target == Target::Text && self.low
    }
}

impl Control {
    // Whether a data transfer shifts the display.
    pub(crate) fn shifts(self) -> bool
        ensures { result ≡ shifts self }
    {
        self.place.completes() && self.entry.s
    }

    // The controls after a half has been written or read.
    #[tactic(auto, unfolding(crate::specs::Data::moved_on))]
    pub fn moved_on(self) -> Control
        requires { InRange self }
        ensures { result ≡ moved_on self }
    {
        let id = self.entry.id;
        let mut next = self;
        next.place = self.place.moved(id);
        if self.shifts() {
            next.view = self.view.display_moved(!id);
        }
        next
    }

    // The controls after a dummy read: the mark is cleared, and nothing moves.
    pub fn dummy_read(self) -> Control
        ensures { result ≡ dummy_read self }
    {
        let place = self.place;
        let mut next = self;
        next.place = Place {
            target: place.target,
            counter: place.counter,
            row: place.row,
            low: place.low,
            dummy: false,
            waiting: None,
        };
        next
    }
}
