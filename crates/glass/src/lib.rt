// Which glass a frame is for, and where in it the bytes of the glass lie: by shifts and sums alone, as the small board multiplies in software.
#![tactic(auto)]

ghost use Rattle.std.specs.Prelude.{◌≡◌, ◌<◌};
ghost use Rattle.glass.specs.Frames.{layout_of};
ghost use Rattle.glass.specs.Places.{stride_of, place_on};

mod lookup;
mod numbers;

pub use lookup::native;
pub use numbers::numbered;

// Wide is 32 rows of 32 bytes. Folded is 64 rows of 16: the left half of each wide row, and below them all the right halves.
#[derive(Clone, Copy, Debug, PartialEq, Eq)]
pub enum Glass {
    Wide,
    Folded,
}

// How many bytes its frame has: a table, as the next one, with a row for each glass.
pub fn size(glass: Glass) -> usize
    ensures { result ≡ (layout_of glass).size }
{
    match glass {
        Glass::Wide => 1024,
        Glass::Folded => 1024,
    }
}

// How far apart two rows of a column lie in its frame.
pub fn stride(glass: Glass) -> usize
    ensures { result ≡ stride_of glass }
{
    match glass {
        Glass::Wide => 32,
        Glass::Folded => 16,
    }
}

// Where the byte at a row and a column lies in its frame.
pub fn place(glass: Glass, row: u32, column: u32) -> usize
    requires { (row < 32) × (column < 32) }
    ensures value { result ≡ place_on glass row column }
    ensures inside { result < (layout_of glass).size }
{
    match glass {
        Glass::Wide => ((row << 5) + column) as usize,
        Glass::Folded => ((row << 4) + ((column / 16) << 9) + column % 16) as usize,
    }
}
