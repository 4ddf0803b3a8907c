// Which bytes of the glass a transfer names, as the controls before and after it tell.
ghost use Rattle.std.specs.Prelude.{◌≡◌};
ghost use Rattle.controller.specs.Glass.{image_of};
ghost use Rattle.controller.specs.Named.{counter_cell, both_cells, address_names, touch_names, instruction_names, text_names, write_by_target, write_names, read_names};

use crate::{Control, Place, Region};
use table::{Target, Touch};

// The image of glyph memory that a text word shows, if one: words 0000h..000Fh do.
#[tactic(auto, unfolding(crate::specs::Glass::image_of))]
pub fn image(high: u8, low: u8) -> Option<u8>
    ensures { result ≡ image_of high low }
{
    if high == 0x00 && low <= 0x0F {
        return Some(low / 2 % 4);
    }
    None
}

// The counter's cell, by its text word, where the target is text.
pub fn counter_cell(place: Place) -> Option<u8>
    ensures { result ≡ counter_cell place }
{
    match place.target {
        Target::Text => Some(place.counter),
        Target::Glyph | Target::Graphic => None,
    }
}

fn both_cells(before: Place, after: Place) -> Region
    ensures { result ≡ both_cells before after }
{
    Region::Cells(counter_cell(before), counter_cell(after))
}

// Address sets and cursor moves name the counter's cell before and after, a row alone none.
fn address_names(before: Place, after: Place) -> Region
    ensures { result ≡ address_names after.waiting before after }
{
    match after.waiting {
        None => both_cells(before, after),
        Some(_) => Region::Nothing,
    }
}

fn touch_names(touch: Touch, before: Place, after: Place) -> Region
    ensures { result ≡ touch_names touch before after }
{
    match touch {
        Touch::Nothing => Region::Nothing,
        Touch::Counter => address_names(before, after),
        Touch::All | Touch::AllAndText => Region::Whole,
    }
}

#[tactic(auto, unfolding(crate::specs::Named::instruction_names))]
pub fn instruction_names(before: Control, after: Control, touch: Touch) -> Region
    ensures { result ≡ instruction_names before after touch }
{
    if before.standby && !after.standby {
        return Region::Whole;
    }
    touch_names(touch, before.place, after.place)
}

// The word's cell and, if the counter steps, the new word's cell.
fn text_names(before: Place, after: Place) -> Region
    ensures { result ≡ text_names before after }
{
    if before.low {
        return Region::Cells(Some(before.counter), Some(after.counter));
    }
    Region::Cells(Some(before.counter), None)
}

fn write_by_target(before: Place, after: Place) -> Region
    ensures { result ≡ write_by_target before.target before after }
{
    match before.target {
        Target::Text => text_names(before, after),
        Target::Glyph => Region::GlyphHalf {
            word: before.counter,
            low: before.low,
        },
        Target::Graphic => Region::GraphicHalf {
            row: before.row,
            column: before.counter,
            low: before.low,
        },
    }
}

#[tactic(auto, unfolding(crate::specs::Named::write_names))]
pub fn write_names(before: Control, after: Control) -> Region
    ensures { result ≡ write_names before after }
{
    if before.shifts() {
        return Region::Whole;
    }
    write_by_target(before.place, after.place)
}

#[tactic(auto, unfolding(crate::specs::Named::read_names))]
pub fn read_names(before: Control, after: Control) -> Region
    ensures { result ≡ read_names before after }
{
    if before.shifts() {
        return Region::Whole;
    }
    if before.place.completes() {
        return both_cells(before.place, after.place);
    }
    Region::Nothing
}
