// Replays a capture and shows the glass: in Braille characters, in plain ones, or as a picture file; and says which glyphs are missing.
// What is read and written is no matter of a contract; the replay is `playback`'s and the text `frame_view`'s.
#![tactic(auto)]

use asked::saying::failed;
use asked::words::{Asked, Task};
use asked::{files, saying};
use host::{created, opened, word_at};
use picture::lent::Lent;
use playback::Halt;
use replaying::{Ended, replayed};
use std::io;
use std::io::{Read, Write};

mod listing;
mod replaying;

// The line below the glass: how many records it shows, and why it may be dark.
fn caption(rt: &HostRuntime, ended: Ended) {
    let records = ended.records;
    let plural = if records == 1 { "" } else { "s" };
    let control = ended.panel.control;
    let dark = if !control.shown.display {
        ", the display is off"
    } else if control.standby {
        ", in standby"
    } else {
        ""
    };
    // Nothing is said where it cannot be written.
    let _ = println!(rt; "{records} record{plural}{dark}");
}

// A picture file, by the number of the argument that names it.
fn write_picture(rt: &HostRuntime, at: usize, frame: &[u8; 1024]) {
    let mut room = [0u8; 4096];
    let name = word_at(rt, at, &mut room);
    let mut file = match created(rt, name) {
        Ok(file) => file,
        Err(error) => {
            failed(rt, name, error);
            return;
        }
    };
    let picture = frame_view::pbm(frame);
    if let Err(error) = file.write_all(&picture) {
        failed(rt, name, error);
    }
}

// The glass, as it is asked for.
fn picture(rt: &HostRuntime, asked: Asked, frame: &[u8; 1024], ended: Ended) -> io::Result<()> {
    if let Some(at) = asked.files.pbm {
        write_picture(rt, at, frame);
        return Ok(());
    }
    if asked.plain {
        return rt.stdout().write_all(&frame_view::plain(frame));
    }
    rt.stdout().write_all(&frame_view::braille(frame))?;
    caption(rt, ended);
    Ok(())
}

// The glass, and below it which glyphs a full font of `length` bytes lacks, where that is asked for.
fn picture_and_list(
    rt: &HostRuntime,
    asked: Asked,
    frame: &[u8; 1024],
    ended: Ended,
    length: usize,
) -> io::Result<()> {
    picture(rt, asked, frame, ended)?;
    if asked.missing {
        listing::list(rt, &ended.panel.text, ended.panel.control.view, length)?;
    }
    Ok(())
}

// Shows the capture that a reader gives; `file` is its name in messages.
fn show<R: Read>(rt: &HostRuntime, asked: Asked, from: &mut R, file: &[u8]) {
    let mut half = half_font::built_in();
    let Some(m) = files::half_font(rt, asked.files.half, &mut half) else {
        return;
    };
    let mut full = files::full_buffer();
    let Some(n) = files::full_font(rt, asked.files.full, &mut full) else {
        return;
    };
    let lent = Lent {
        half: &half[..m],
        full: &full[..n],
        phase: asked.phase,
    };
    let mut frame = [0u8; 1024];
    let ended = replayed(from, asked.records, asked.time, &mut frame, &lent);
    // After a failed read, what was replayed is shown all the same.
    if let Some(error) = ended.failure {
        failed(rt, file, error);
        if ended.records == 0 {
            return;
        }
    }
    if let Err(error) = picture_and_list(rt, asked, &frame, ended, n) {
        failed(rt, b"standard output", error);
    }
    if let Halt::Refused(refusal) = ended.halt {
        saying::stopped(rt, file, ended.records, refusal, asked.time);
    }
}

fn show_file(rt: &HostRuntime, asked: Asked, at: usize) {
    let mut room = [0u8; 4096];
    let name = word_at(rt, at, &mut room);
    match opened(rt, name) {
        Ok(mut file) => show(rt, asked, &mut file, name),
        Err(error) => failed(rt, name, error),
    }
}

fn main(rt: HostRuntime) {
    match Task::from_arguments(&rt) {
        None => {}
        Some(Task::Help) => saying::usage(&rt.stdout()),
        Some(Task::Show(asked)) => match asked.files.capture {
            None => show(&rt, asked, &mut rt.stdin(), b"standard input"),
            Some(at) => show_file(&rt, asked, at),
        },
    }
}
