// The lines of a replay, where it tells them. Whether it does is a type, and no value that each turn would ask: the loop is there for each.
ghost use Rattle.std.specs.Prelude.{Bool, true, false, ◌≡◌, ◌+◌, ◌≤◌, length};
ghost use Rattle.printed.specs.Text.{line, Put};
ghost use Rattle.playback.specs.Transcript.{told_by};
ghost use Rattle.playback.specs.Replay.{room_of, room_for};

use printed::{RecordAnswer, has_room, put_line};

pub(crate) trait Lines {
    // Whether lines are told.
    ghost telling: { Bool };

    // Whether one more record may be carried out: always where no lines are told.
    fn room_for(rest: usize, place: usize) -> bool
        ensures { result ≡ room_for (room_of telling rest) place };

    // Puts a record's line behind those before it, and answers the place behind it: buffer and place side by side, as in `printed`.
    fn tell(text: &mut [u8], filled: usize, place: usize, answer: RecordAnswer) -> usize
        requires { filled + length (told_by telling (line place answer)) ≤ length text.old }
        ensures { Put text.old filled (told_by telling (line place answer)) text.new result };
}

pub(crate) struct Told;

impl Lines for Told {
    ghost telling = { true };

    fn room_for(rest: usize, place: usize) -> bool {
        has_room(rest, place)
    }

    fn tell(text: &mut [u8], filled: usize, place: usize, answer: RecordAnswer) -> usize {
        put_line(text, filled, place, answer)
    }
}

// No lines, and so nothing of the buffer is used.
pub(crate) struct Silent;

impl Lines for Silent {
    ghost telling = { false };

    fn room_for(_rest: usize, _place: usize) -> bool {
        true
    }

    fn tell(_text: &mut [u8], filled: usize, _place: usize, _answer: RecordAnswer) -> usize {
        filled
    }
}
