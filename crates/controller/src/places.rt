// Where a byte lies in its memory or in the frame: by shifts and sums alone, as the small board multiplies in software.
ghost use Rattle.std.specs.Prelude.{◌≡◌, ◌+◌, ◌*◌, ◌<◌};
ghost use Rattle.controller.specs.Memories.{half, word_place, graphic_place};

// 0 for the high half, 1 for the low one.
pub fn half(low: bool) -> usize
    ensures { result ≡ half low }
{
    usize::from(low)
}

// A half of a word of text or glyph memory.
pub fn word_place(word: u8, low: bool) -> usize
    requires { word < 64 }
    ensures value { result ≡ word_place word low }
    ensures inside { result < 128 }
{
    (usize::from(word) << 1) + half(low)
}

// The column of a half of one of a row's sixteen words.
pub fn byte_column(word: u32, low: bool) -> u32
    requires { word < 16 }
    ensures value { result ≡ 2 * word + half low }
    ensures inside { result < 32 }
{
    (word << 1) + u32::from(low)
}

// A byte of graphic memory or of the frame: each of their rows has 32.
pub fn row_place(row: u32, column: u32) -> usize
    requires { (row < 64) × (column < 32) }
    ensures { result ≡ 32 * row + column }
{
    ((row << 5) + column) as usize
}

// A half of a word of graphic memory.
pub(crate) fn graphic_place(row: u8, column: u8, low: bool) -> usize
    requires { (row < 64) × (column < 16) }
    ensures value { result ≡ graphic_place row column low }
    ensures inside { result < 2048 }
{
    row_place(u32::from(row), byte_column(u32::from(column), low))
}
