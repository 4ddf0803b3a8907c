// The picture drawn afresh into a frame that the caller lends: a word is looked up once for all rows of its cell, and a line once for its
// band of rows.
#![tactic(auto)]

mod afresh;
mod whole;

pub use afresh::draw;
pub use whole::paint_whole;
