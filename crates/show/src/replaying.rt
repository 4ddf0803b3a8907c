// A capture of any length, replayed part by part.
ghost use Rattle.std.specs.Prelude.{◌≤◌};

use events::{Made, Numbering};
use host::fill;
use panel::Panel;
use picture::lent::Lent;
use playback::Halt;
use std::io;
use std::io::Read;

// Where a replay ended: the panel then, how many records it accepted, why it stopped, and what a read failed with, where one did.
#[derive(Clone, Copy)]
pub(crate) struct Ended {
    pub panel: Panel,
    pub records: u64,
    pub halt: Halt,
    pub failure: Option<io::Error>,
}

// How many bytes of the next part are wanted: 4,096, so that no record lies across two parts, or those of the last records.
fn wanted(records: u64) -> usize
    ensures { result ≤ 4096 }
{
    4 * records.min(1024) as usize
}

// Replays at most so many records on a fresh parallel panel, with or without time, as document 01's `replay` does.
pub(crate) fn replayed<R: Read>(
    from: &mut R,
    most: u64,
    time: bool,
    frame: &mut [u8; 1024],
    lent: &Lent,
) -> Ended {
    let mut ended = Ended {
        panel: Panel::fresh(Made {
            parallel: true,
            time,
            numbering: Numbering::By96,
        }),
        records: 0,
        halt: Halt::End,
        failure: None,
    };
    let mut input = [0u8; 4096];
    for before in 0..most.div_ceil(1024) {
        let filled = fill(from, &mut input[..wanted(most - 1024 * before)]);
        let stop = playback::replay(ended.panel, &input[..filled.count], frame, lent);
        ended = Ended {
            panel: stop.panel,
            records: ended.records.saturating_add(stop.place as u64),
            halt: stop.halt,
            failure: filled.failure,
        };
        // The capture may go on behind a whole part alone.
        if filled.count < 4096 || stop.halt != Halt::End {
            break;
        }
    }
    ended
}
