// Single bytes of the picture, and the painter of one row of a cell.
ghost use Rattle.std.specs.Prelude.{◌≡◌, ◌<◌, length};
ghost use Rattle.picture.specs.Picture.{shown_at, byte_over};
ghost use Rattle.picture.specs.Tiles.{pair_stored};

use crate::shade::{counter_word, invert, mark, overlay};
use crate::shown::{shown_row, shown_word, word_content};
use crate::{Scene, TwoBytes};
use controller::places::row_place;

// The row painter: it is lent the two bytes of one row of a cell, and nothing else. By their length: as an array they would have to be taken
// from a part of the frame by a test that cannot fail.
pub fn paint_row(part: &mut [u8], pair: TwoBytes)
    requires { length part.old ≡ 2 }
    ensures { part.new ≡ pair_stored part.old 0 pair }
{
    part[0] = pair.left;
    part[1] = pair.right;
}

impl Scene<'_> {
    // One byte of the glass, where its cell has these dots: with everything over them.
    #[tactic(auto, unfolding(crate::specs::Picture::byte_over))]
    pub fn byte_over(&self, row: u32, column: u32, dots: u8) -> u8
        requires { (row < 32) × (column < 32) }
        ensures { result ≡ byte_over dots self.now.graphic.now self.now.look row column }
    {
        let look = self.look;
        if look.dark {
            return 0x00;
        }
        let s = shown_row(look.view, row);
        let cell = look.counter;
        let here = shown_word(look.view, row, column / 2) == counter_word(cell);
        let marked = mark(here, look.cursor && s % 16 == 15, look.blink, dots);
        let reversed = look.view.reversed;
        let line = s / 16;
        let place = row_place(s, column);
        overlay(
            look.graphic,
            self.graphic[place],
            invert(reversed[line as usize], marked),
        )
    }

    // One byte of the glass, with one lookup of its word.
    #[tactic(auto, unfolding(crate::specs::Picture::byte_at))]
    pub fn byte_at(&self, row: u32, column: u32) -> u8
        requires { (row < 32) × (column < 32) }
        ensures { result ≡ shown_at self.now row column }
    {
        let view = self.look.view;
        let word = shown_word(view, row, column / 2);
        let shown = word_content(self.text, view.numbering, word, self.glyphs.full.len());
        let y = shown_row(view, row) % 16;
        let dots = self.glyphs.dot_byte(shown, y as usize, column % 2 == 1);
        self.byte_over(row, column, dots)
    }
}
