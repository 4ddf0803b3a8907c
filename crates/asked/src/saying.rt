// What the program says on standard error. Every message begins with its name, and names the file or the word that it is about.
use host::say;
use refusals::Refusal;
use std::io;

// A file that the system would not open, read or write, and why.
pub fn failed(rt: &HostRuntime, file: &[u8], error: io::Error) {
    say(rt, b"show: ");
    host::fail(&rt.stderr(), file, error);
}

// The beginning of a message about a word or a file.
fn about(rt: &HostRuntime, name: &[u8]) {
    say(rt, b"show: ");
    say(rt, name);
    say(rt, b": ");
}

// What is wrong with a word or a file.
pub(crate) fn wrong(rt: &HostRuntime, name: &[u8], what: &[u8]) {
    about(rt, name);
    say(rt, what);
    say(rt, b"\n");
}

// A font of a length that document 01 refuses; `most` is the longest that is looked at.
pub(crate) fn wrong_length(
    rt: &HostRuntime,
    file: &[u8],
    what: &[u8],
    length: usize,
    most: usize,
    refusal: Refusal,
) {
    about(rt, file);
    say(rt, what);
    if length < most {
        let _ = eprint!(rt; "; this file has {length}");
    } else {
        say(rt, b"; this file has more");
    }
    let number = u8::from(refusal);
    let _ = eprintln!(rt; " (number {number})");
}

// Document 01's words for the refusal of a record. The last kind that there is depends on whether the panel has time.
fn why(rt: &HostRuntime, refusal: Refusal, time: bool) {
    let words: &[u8] = match refusal {
        Refusal::Frame | Refusal::HalfFont | Refusal::FullFont | Refusal::Buffer => {
            b"the frame or a font has a wrong length"
        }
        Refusal::OtherLink => b"it is of the other link",
        Refusal::Cut => b"only 1 to 3 bytes remain",
        Refusal::Mark => b"its mark is not A5h 5Ah",
        Refusal::Kind if time => b"its kind is above 7",
        Refusal::Kind => b"its kind is above 6",
        Refusal::Value => b"its value is not allowed for its kind",
    };
    say(rt, words);
}

// Where a replay stopped, and why.
pub fn stopped(rt: &HostRuntime, file: &[u8], records: u64, refusal: Refusal, time: bool) {
    let number = u8::from(refusal);
    about(rt, file);
    let _ = eprint!(rt; "stopped at record {records} with number {number}: ");
    why(rt, refusal, time);
    say(rt, b"\n");
}

// To standard output, or to standard error below what was wrong.
pub fn usage(to: &impl Print) {
    let _ = to.write_all(
        b"usage: show [FILE] [OPTION ..]
Replays a capture, FILE or else standard input, and shows the glass.
  --half FILE   the half font, 2,048 bytes; else a small one of our own
  --full FILE   the full font, a multiple of 32 bytes up to 281,600; else an empty one, which has boxes for all codes
  --phase 0|1   the blink phase; else 0
  --time        the panel has time, and kind 7 says that some passed
  --records N   stops after N records
  --plain       32 lines of 256 characters, # for a dot that is set
  --pbm FILE    writes the picture into a file (PBM), and prints none
  --missing     says which codes have no glyph in the full font, and where
  --help        prints this
",
    );
}
