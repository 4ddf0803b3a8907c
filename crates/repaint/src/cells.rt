// A cell: its two columns on the visible rows of its line. That a view's numbers lie in their ranges is asked for here and in `regions`, and
// is no invariant of `Look`: a drawing makes one of any controls.
ghost use Rattle.std.specs.Prelude.{◌≡◌, ◌+◌, ◌*◌, ◌<◌, ◌≤◌};
ghost use Rattle.base.specs.Layout.{painted_on, rows};
ghost use Rattle.controller.specs.Named.{in_cell, in_some_cell};
ghost use Rattle.picture.specs.Picture.{shown_at, wide};
ghost use Rattle.picture.specs.Tiles.{shown_by, in_cell_row};
ghost use Rattle.repaint.specs.Repaint.{ViewWithin, painting, paints_on, CellWithin, run_first, run_end, in_columns};

use controller::places::row_place;
use picture::paint::paint_row;
use picture::{Look, Scene};
use std::ops::Range;
use tiles::{tile_pair, word_tile};

// The rows of the glass that show a line of text: they follow one another. None where none shows it.
#[tactic(auto, unfolding(crate::specs::Repaint::run_first, crate::specs::Repaint::run_end))]
fn run(scroll: u32, line: u32) -> Range<u32>
    requires { (scroll < 64) × (line < 4) }
    ensures first { result.start ≡ run_first scroll line }
    ensures end { result.end ≡ run_end scroll line }
{
    let top = (16 * line + 64 - scroll) % 64;
    if top < 32 {
        top..(top + 16).min(32)
    } else {
        0..top.saturating_sub(48)
    }
}

// One row of one cell: the row painter is lent its two bytes, a part from the middle of the frame.
fn paint_cell_row(
    tile: &[u8; 32],
    graphic: &[u8; 2048],
    look: Look,
    row: u32,
    cell: u32,
    frame: &mut [u8; 1024],
)
    requires { (row < 32) × (cell < 16) }
    ensures { frame.new ≡ painted_on wide (in_cell_row row cell) (shown_by tile.now graphic.now look) frame.old }
{
    let pair = tile_pair(tile, graphic, look, row, cell);
    let start = row_place(row, 2 * cell);
    let end = start + 2;
    paint_row(&mut frame[start..end], pair);
}

// A cell on some rows. By the look and the graphic themselves: in the scene they would be looked at again for each row.
fn paint_rows(
    tile: &[u8; 32],
    graphic: &[u8; 2048],
    look: Look,
    cell: u32,
    run: Range<u32>,
    frame: &mut [u8; 1024],
) -> u32
    requires { (cell < 16) × (run.start ≤ run.end) × (run.end ≤ 32) }
    ensures { painting result frame.new ≡ paints_on wide (rows run.start run.end (in_columns cell)) (shown_by tile.now graphic.now look) frame.old }
{
    let mut count: u32 = 0;
    for row in run {
        paint_cell_row(tile, graphic, look, row, cell, frame);
        count += 2;
    }
    count
}

// The cell of a text word: looked up once, and only where its line shows.
fn paint_word(scene: &Scene, word: u32, frame: &mut [u8; 1024]) -> u32
    requires { ViewWithin scene.now.look.view × (word < 64) }
    ensures { painting result frame.new ≡ paints_on wide (in_cell scene.now.look.view word) (shown_at scene.now) frame.old }
{
    let view = scene.look.view;
    let run = run(view.scroll as u32, word / 16);
    if run.is_empty() {
        return 0;
    }
    let tile = word_tile(scene, word);
    let cell = (word + 16 - view.shift as u32) % 16;
    paint_rows(&tile, scene.graphic, scene.look, cell, run, frame)
}

// A cell, where there is one.
pub fn paint_cell(scene: &Scene, cell: Option<u8>, frame: &mut [u8; 1024]) -> u32
    requires { ViewWithin scene.now.look.view × CellWithin cell }
    ensures { painting result frame.new ≡ paints_on wide (in_some_cell scene.now.look.view cell) (shown_at scene.now) frame.old }
{
    match cell {
        None => 0,
        Some(word) => paint_word(scene, u32::from(word), frame),
    }
}
