// What the programs ask of the system: how many words they were given, files by the names that words give, bytes read into a lent buffer,
// and the text of what failed.
#![tactic(auto)]

ghost use Rattle.host.specs.Counts.{IsPrefixLen};

use std::env::FillError;
use std::fmt::InlineText;
use std::fs::File;
use std::io::Read;
use std::rt::Env;
use std::{io, str};

// How many words the command line has; the first is the program's own name.
pub fn word_count(rt: &impl Env) -> usize {
    for at in 0..usize::MAX {
        if let Err(FillError::NotPresent) = rt.arg(at, &mut []) {
            return at;
        }
    }
    usize::MAX
}

// The word at a place of the command line; none where there is no such word or it does not fit.
pub fn word_if_any<'a>(rt: &impl Env, at: usize, room: &'a mut [u8; 4096]) -> Option<&'a [u8]> {
    match rt.arg(at, room) {
        Ok(n) => Some(&room[..n]),
        Err(_) => None,
    }
}

// The same where it is known to be there, and empty where it is not.
pub fn word_at<'a>(rt: &impl Env, at: usize, room: &'a mut [u8; 4096]) -> &'a [u8] {
    word_if_any(rt, at, room).unwrap_or(&[])
}

// A file by its name. A name is text in UTF-8; there is no other way to open one.
fn path_in(name: &[u8]) -> io::Result<&str> {
    str::from_utf8(name).map_err(|_| io::Error::new(
        io::ErrorKind::InvalidFilename,
        "the name is not UTF-8",
    ))
}

// Opens a file for reading.
pub fn opened(rt: &HostRuntime, name: &[u8]) -> io::Result<File> {
    File::open(rt, path_in(name)?)
}

// Opens a file for writing, as an empty one, whether there was one or not.
pub fn created(rt: &HostRuntime, name: &[u8]) -> io::Result<File> {
    File::create(rt, path_in(name)?)
}

// How many bytes came, and what a read failed with, where one did: bytes may have come before it, so this is no Result.
#[derive(Clone, Copy)]
pub struct Filled {
    pub count: usize,
    pub failure: Option<io::Error>,
}

// Reads until the buffer is full, the input ends or a read fails; a read brings as much as it likes, so no range counts them. A record that a
// failed read cut short is left out: the capture does not end there.
pub fn fill<R: Read>(input: &mut R, buffer: &mut [u8]) -> Filled
    ensures { IsPrefixLen result.count buffer.new }
{
    let end = buffer.len();
    let mut done: usize = 0;
    while done < end {
        match input.read(&mut buffer[done..end]) {
            Ok(0) => break,
            Ok(count) => done += count,
            Err(error) => {
                return Filled {
                    count: done - done % 4,
                    failure: Some(error),
                };
            }
        }
    }
    Filled {
        count: done,
        failure: None,
    }
}

// A text for standard error. Where it cannot be written, nothing can be said of that.
pub fn say(rt: &HostRuntime, text: &[u8]) {
    let _ = rt.stderr().write_all(text);
}

// Writes a line: what failed, a colon and why, in the system's words without its number.
pub fn fail(to: &impl Print, what: &[u8], error: io::Error) {
    let said = InlineText::<320>::of(error);
    let whole = said.as_str();
    let why = whole
        .split_once(" (os error ")
        .map_or(whole, |(why, _)| why);
    let _ = to.write_all(what);
    let _ = to.write_all(b": ");
    let _ = to.print(why);
    let _ = to.write_all(b"\n");
}
