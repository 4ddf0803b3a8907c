// What the program `show` is asked by its words, the files that it reads, and what it says on standard error. A crate of its own, so that it
// is proved beside the panel and not after it.
#![tactic(auto)]

pub mod files;
pub mod saying;
pub mod words;
