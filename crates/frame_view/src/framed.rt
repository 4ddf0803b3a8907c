// The glass in Braille characters, with a line drawn around it.
ghost use Rattle.std.specs.Prelude.{◌≡◌, ◌+◌, ◌<◌};
ghost use Rattle.frame_view.specs.Braille.{three_down, braille_at, line_of, character as characterAt, utf8 as utf8Of, text_at, braille as brailleOf};

use crate::dots::dot;
use std::array;

// Three dots, from column x of row y down.
#[tactic(auto, unfolding(crate::specs::Braille::three_down))]
fn three_down(frame: &[u8; 1024], x: usize, y: usize) -> u16
    requires { (x < 256) × (y + 2 < 32) }
    ensures value { result ≡ three_down frame.now x y }
    ensures small { result < 8 }
{
    dot(frame, x, y) + 2 * dot(frame, x, y + 1) + 4 * dot(frame, x, y + 2)
}

// The Braille character whose upper left dot is at column x of row y.
#[tactic(auto, unfolding(crate::specs::Braille::braille_at))]
fn cell(frame: &[u8; 1024], x: usize, y: usize) -> u16
    requires { (x + 1 < 256) × (y + 3 < 32) }
    ensures { result ≡ braille_at frame.now x y }
{
    let upper = three_down(frame, x, y) + 8 * three_down(frame, x + 1, y);
    let lower = 64 * dot(frame, x, y + 3) + 128 * dot(frame, x + 1, y + 3);
    0x2800 + upper + lower
}

// One character at either end of a line, and between them another.
fn line_of(left: u16, middle: u16, right: u16, column: usize) -> u16
    ensures { result ≡ line_of left middle right column }
{
    if column == 0 {
        return left;
    }
    if column == 129 {
        return right;
    }
    middle
}

// The character at a column of a line.
#[tactic(auto, unfolding(crate::specs::Braille::character))]
fn character(frame: &[u8; 1024], line: usize, column: usize) -> u16
    requires { (line < 10) × (column < 130) }
    ensures { result ≡ characterAt frame.now line column }
{
    if line == 0 {
        return line_of(0x250C, 0x2500, 0x2510, column);
    }
    if line == 9 {
        return line_of(0x2514, 0x2500, 0x2518, column);
    }
    if column == 0 {
        return 0x2502;
    }
    if column == 129 {
        return 0x2502;
    }
    cell(frame, 2 * (column - 1), 4 * (line - 1))
}

// Byte n of a character in UTF-8: by its place, as the text is made, and so not by `encode_utf8`.
#[tactic(auto, unfolding(crate::specs::Braille::utf8))]
fn utf8(c: u16, n: usize) -> u8
    ensures { result ≡ utf8Of c n }
{
    if n == 0 {
        return 0xE0 + (c / 4096) as u8;
    }
    if n == 1 {
        return 0x80 + (c / 64 % 64) as u8;
    }
    0x80 + (c % 64) as u8
}

// Byte i of the text.
#[tactic(auto, unfolding(crate::specs::Braille::text_at))]
fn text_byte(frame: &[u8; 1024], i: usize) -> u8
    requires { i < 3910 }
    ensures { result ≡ text_at frame.now i }
{
    let column = i % 391;
    if column == 390 {
        return b'\n';
    }
    utf8(character(frame, i / 391, column / 3), column % 3)
}

// Ten lines of 130 characters: the glass as 8 lines of 128 Braille characters, and a line around it.
#[tactic(auto, unfolding(crate::specs::Braille::braille))]
pub fn braille(frame: &[u8; 1024]) -> [u8; 3910]
    ensures { result ≡ brailleOf frame.now }
{
    array::from_fn(|i| text_byte(frame, i))
}
