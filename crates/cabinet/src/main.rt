// Two panels on one wire: reads a recorded wire from standard input, and shows both glasses. A byte is a clock, as a recorder with eight
// inputs stores it: input 0 is the data line, input 1 the left panel's select, input 2 the right's; the others are not looked at.
// What is read and written is no matter of a contract; what the panels do is `pair`'s, and the text `frame_view`'s.
#![tactic(auto)]

ghost use Rattle.calls.specs.State.{Valid};
ghost use Rattle.panel.specs.Handed.{state_of};

use events::{Made, Numbering};
use host::fail;
use lent_pair::{Clock, Sides};
use pair::Pair;
use panel::Panel;
use picture::lent::Lent;
use std::io;
use std::io::Read;
use std::marker::Model;

// The pair, its frames, and how many clocks it has had.
#[derive(Drop)]
struct Cabinet {
    pair: Pair,
    frames: Sides<[u8; 1024]>,
    clocks: u64,
}

// No contract says anything of it but that its panels are valid.
impl Model for Cabinet {
    ghost Value = { Unit {0} };

    ghost view = { λ _. tt };

    ghost invariant = { λ c. Valid (state_of c.pair.left) × Valid (state_of c.pair.right) };
}

impl Cabinet {
    // Two fresh serial panels, without time.
    fn fresh() -> Cabinet {
        let panel = Panel::fresh(Made {
            parallel: false,
            time: false,
            numbering: Numbering::By96,
        });
        Cabinet {
            pair: Pair {
                left: panel,
                right: panel,
            },
            frames: Sides {
                left: [0; 1024],
                right: [0; 1024],
            },
            clocks: 0,
        }
    }

    // A clock. Both panels are lent the same, in two copies: the borrow checker does not cover one that is passed twice.
    fn hear(&mut self, inputs: u8, lent: &Lent) {
        let clock = Clock {
            bit: inputs & 1 != 0,
            left: inputs & 2 != 0,
            right: inputs & 4 != 0,
        };
        let copy = *lent;
        let left = &mut self.frames.left;
        let right = &mut self.frames.right;
        if let Ok(outcome) = self.pair.bit(clock, left, lent, right, &copy) {
            self.pair = outcome.pair;
        }
        self.clocks = self.clocks.wrapping_add(1);
    }

    // All of the wire, or what of it comes before a read that fails. As many reads as there may be: no wire is so long.
    fn hear_all(&mut self, rt: &HostRuntime, lent: &Lent) -> io::Result<()> {
        let mut input = [0u8; 4096];
        for _ in 0..u64::MAX {
            let n = rt.stdin().read(&mut input)?;
            if n == 0 {
                break;
            }
            for inputs in &input[..n] {
                self.hear(*inputs, lent);
            }
        }
        Ok(())
    }

    // Both glasses, and how many clocks there were.
    fn show(&self, rt: &HostRuntime) -> io::Result<()> {
        let clocks = self.clocks;
        rt.write_all(b"left\n")?;
        rt.write_all(&frame_view::braille(&self.frames.left))?;
        rt.write_all(b"right\n")?;
        rt.write_all(&frame_view::braille(&self.frames.right))?;
        println!(rt; "{clocks} clocks")
    }
}

fn main(rt: HostRuntime) {
    let half = half_font::built_in();
    let lent = Lent {
        half: &half[..2048],
        full: &[],
        phase: false,
    };
    let mut cabinet = Cabinet::fresh();
    // After a failed read, what was heard is shown all the same.
    if let Err(error) = cabinet.hear_all(&rt, &lent) {
        fail(&rt.stderr(), b"cabinet: standard input", error);
        if cabinet.clocks == 0 {
            return;
        }
    }
    if let Err(error) = cabinet.show(&rt) {
        fail(&rt.stderr(), b"cabinet: standard output", error);
    }
}
