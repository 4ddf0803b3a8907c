// A half of a glyph or graphic word: the bytes that show it, one by one; the other byte of each pair keeps what it held.
ghost use Rattle.std.specs.Prelude.{◌≡◌, ◌+◌, ◌*◌, ◌%◌, ◌<◌, get_or};
ghost use Rattle.base.specs.Layout.{rows, columns};
ghost use Rattle.controller.specs.Memories.{word_place};
ghost use Rattle.controller.specs.Glass.{word_image, is_image};
ghost use Rattle.controller.specs.Named.{shows_glyph};
ghost use Rattle.picture.specs.Picture.{shown_at, byte_over, wide};
ghost use Rattle.repaint.specs.Repaint.{ViewWithin, painting, paints_on, shows_place};

use crate::ImageByte;
use controller::named::image;
use controller::places::{byte_column, row_place, word_place};
use picture::Scene;
use picture::shown::shown_word;

// Whether a text word shows an image.
#[tactic(auto, unfolding(controller::specs::Glass::word_image))]
fn shows_image(text: &[u8; 128], word: u32, number: u8) -> bool
    requires { word < 64 }
    ensures { result ≡ is_image (word_image text.now word) number }
{
    let at = 2 * (word as usize);
    image(text[at], text[at + 1]) == Some(number)
}

// One cell of a row that shows the image's row, where its word shows the image.
fn paint_if_image(
    scene: &Scene,
    part: ImageByte,
    row: u32,
    cell: u32,
    frame: &mut [u8; 1024],
) -> u32
    requires { ((row + scene.now.look.view.scroll) % 64 % 16 ≡ part.word % 16) × (row < 32) × (cell < 16) }
    ensures { painting result frame.new ≡ paints_on wide (columns (2 * cell) (2 * cell + 2) (rows row (row + 1) (shows_glyph scene.now.look.view scene.now.text.now part.word part.low))) (byte_over part.dots scene.now.graphic.now scene.now.look) frame.old }
{
    let shown = shown_word(scene.look.view, row, cell);
    if shows_image(scene.text, shown, part.word / 16) {
        let column = byte_column(cell, part.low);
        frame[row_place(row, column)] = scene.byte_over(row, column, part.dots);
        return 1;
    }
    0
}

// One row of the glass that shows the image's row.
fn paint_image_row(scene: &Scene, part: ImageByte, row: u32, frame: &mut [u8; 1024]) -> u32
    requires { ((row + scene.now.look.view.scroll) % 64 % 16 ≡ part.word % 16) × (row < 32) }
    ensures { painting result frame.new ≡ paints_on wide (rows row (row + 1) (shows_glyph scene.now.look.view scene.now.text.now part.word part.low)) (byte_over part.dots scene.now.graphic.now scene.now.look) frame.old }
{
    let mut count: u32 = 0;
    for cell in 0..16u32 {
        count += paint_if_image(scene, part, row, cell, frame);
    }
    count
}

// A half of a glyph word: each byte showing that half of that image row. It shows on two rows of the glass, sixteen apart, and is the
// same byte before what lies over it.
pub fn paint_glyph_half(scene: &Scene, word: u8, low: bool, frame: &mut [u8; 1024]) -> u32
    requires { word < 64 }
    ensures { painting result frame.new ≡ paints_on wide (shows_glyph scene.now.look.view scene.now.text.now word low) (byte_over (get_or scene.now.glyphs.memory.now (word_place word low) 0) scene.now.graphic.now scene.now.look) frame.old }
{
    let memory = scene.glyphs.memory;
    let part = ImageByte {
        word,
        low,
        dots: memory[word_place(word, low)],
    };
    let row = ((word % 16) as u32 + 256 - scene.look.view.scroll as u32) % 16;
    let count = paint_image_row(scene, part, row, frame);
    count + paint_image_row(scene, part, row + 16, frame)
}

// The byte of graphic row y at a column, if visible.
pub fn paint_graphic_byte(scene: &Scene, y: u32, column: u32, frame: &mut [u8; 1024]) -> u32
    requires { ViewWithin scene.now.look.view × (y < 64) × (column < 32) }
    ensures { painting result frame.new ≡ paints_on wide (shows_place scene.now.look.view y column) (shown_at scene.now) frame.old }
{
    let row = (y + 64 - scene.look.view.scroll as u32) % 64;
    if row < 32 {
        frame[row_place(row, column)] = scene.byte_at(row, column);
        return 1;
    }
    0
}
