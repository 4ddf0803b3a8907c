// The glass in plain characters, and as a picture file.
ghost use Rattle.std.specs.Prelude.{◌≡◌, ◌<◌};
ghost use Rattle.frame_view.specs.Plain.{plain_at, plain as plain_of};
ghost use Rattle.frame_view.specs.Pbm.{pbm_at, pbm as pbmOf};

use crate::dots::dot;
use std::array;

// Byte i of the text.
#[tactic(auto, unfolding(crate::specs::Plain::plain_at))]
fn plain_byte(frame: &[u8; 1024], i: usize) -> u8
    requires { i < 8224 }
    ensures { result ≡ plain_at frame.now i }
{
    let column = i % 257;
    if column == 256 {
        return b'\n';
    }
    if dot(frame, column, i / 257) == 1 {
        return b'#';
    }
    b'.'
}

// 32 lines of 256 characters.
#[tactic(auto, unfolding(crate::specs::Plain::plain))]
pub fn plain(frame: &[u8; 1024]) -> [u8; 8224]
    ensures { result ≡ plain_of frame.now }
{
    array::from_fn(|i| plain_byte(frame, i))
}

const HEADER: [u8; 10] = *b"P4\n256 32\n";

// Byte i of the file.
#[tactic(auto, unfolding(crate::specs::Pbm::pbm_at))]
fn pbm_byte(frame: &[u8; 1024], i: usize) -> u8
    requires { i < 1034 }
    ensures { result ≡ pbm_at frame.now i }
{
    if i < 10 {
        return HEADER[i];
    }
    frame[i - 10]
}

// A file of the kind P4: its header, and behind it the frame.
#[tactic(auto, unfolding(crate::specs::Pbm::pbm))]
pub fn pbm(frame: &[u8; 1024]) -> [u8; 1034]
    ensures { result ≡ pbmOf frame.now }
{
    array::from_fn(|at| pbm_byte(frame, at))
}
