// The glass as people look at it: a frame of 1,024 bytes as text or as a picture file.
#![tactic(auto)]

mod dots;
mod framed;
mod pictures;

pub use framed::braille;
pub use pictures::{pbm, plain};
