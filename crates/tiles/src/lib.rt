// Tiles: a cell's sixteen rows at once, and those of a line's sixteen cells one after the other, with everything over them but the graphic,
// in document 01's order.
#![tactic(auto)]

ghost use Rattle.std.specs.Prelude.{◌≡◌, ◌&&◌, ◌<◌};
ghost use Rattle.base.specs.Lists.{upto};
ghost use Rattle.picture.specs.Tiles.{underlined, turned, marked_at, tile_at, line_at, pair_by};

use controller::places::row_place;
use picture::shade::{counter_word, lit};
use picture::shown::{shown_row, word_content};
use picture::{Look, Scene, TwoBytes};

// Cursor sets glyph row 15.
fn underline_if(tile: &mut [u8; 32], on: bool)
    ensures { tile.new ≡ underlined on tile.old }
{
    if on {
        tile[30] = 0xFF;
        tile[31] = 0xFF;
    }
}

// Blink inverts a tile, and line reverse the tiles of a line.
fn invert_if<const N: usize>(tiles: &mut [u8; N], on: bool)
    ensures { tiles.new ≡ turned on tiles.old }
{
    if on {
        for byte in tiles.iter_mut() {
            *byte = 0xFF - *byte;
        }
    }
}

// In the counter's cell the cursor, and blink over it. One test sees to the fifteen cells of a line that are not it.
fn mark_if(tile: &mut [u8; 32], here: bool, cursor: bool, blink: bool)
    ensures { tile.new ≡ turned (here && blink) (underlined (here && cursor) tile.old) }
{
    if here {
        underline_if(tile, cursor);
        invert_if(tile, blink);
    }
}

// The tile of a text word before line reverse.
fn marked_tile(scene: &Scene, word: u32) -> [u8; 32]
    requires { word < 64 }
    ensures { result ≡ upto 32 (marked_at scene.now word) }
{
    let look = scene.look;
    let cell = look.counter;
    let shown = word_content(
        scene.text,
        look.view.numbering,
        word,
        scene.glyphs.full.len(),
    );
    let mut tile = scene.glyphs.tile(shown);
    mark_if(
        &mut tile,
        word == counter_word(cell),
        look.cursor,
        look.blink,
    );
    tile
}

// The tile of a text word.
pub fn word_tile(scene: &Scene, word: u32) -> [u8; 32]
    requires { word < 64 }
    ensures { result ≡ upto 32 (tile_at scene.now word) }
{
    let mut tile = marked_tile(scene, word);
    let reversed = scene.look.view.reversed;
    let line = word / 16;
    invert_if(&mut tile, reversed[line as usize]);
    tile
}

// The tiles of all sixteen cells of a line, into what the caller lends: by value they would be copied twice. Reverse is of the line, and is
// done once.
pub fn lay_line(scene: &Scene, line: u32, tiles: &mut [u8; 512])
    requires { line < 4 }
    ensures { tiles.new ≡ upto 512 (line_at scene.now line) }
{
    let shift = scene.look.view.shift as u32;
    for cell in 0..16u32 {
        let word = 16 * line + (cell + shift) % 16;
        let to = 32 * (cell as usize);
        tiles[to..to + 32].copy_from_slice(&marked_tile(scene, word));
    }
    let reversed = scene.look.view.reversed;
    invert_if(tiles, reversed[line as usize]);
}

// The two bytes that a cell's tile shows on a row of the glass.
pub fn tile_pair(tile: &[u8; 32], graphic: &[u8; 2048], look: Look, row: u32, cell: u32) -> TwoBytes
    requires { (row < 32) × (cell < 16) }
    ensures { result ≡ pair_by tile.now graphic.now look row cell }
{
    let s = shown_row(look.view, row);
    let at = 2 * ((s % 16) as usize);
    let place = row_place(s, 2 * cell);
    TwoBytes {
        left: lit(look.dark, look.graphic, graphic[place], tile[at]),
        right: lit(look.dark, look.graphic, graphic[place + 1], tile[at + 1]),
    }
}
