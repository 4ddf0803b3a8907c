// A clock of the wire by value: the pair goes in, and the next one is handed on.
ghost use Rattle.std.specs.Prelude.{◌≡◌, IfOk};
ghost use Rattle.picture.specs.Lent.{seen_by};
ghost use Rattle.calls.specs.State.{Valid};
ghost use Rattle.panel.specs.Handed.{state_of};
ghost use Rattle.lent_pair.specs.Pair.{side, pair_called};
ghost use Rattle.pair.specs.Handed.{pair_handed};

use crate::{Pair, PairOutcome};
use calls::Kept;
use lent_pair::{Clock, Sides};
use picture::lent::Lent;
use refusals::Refusal;

impl Pair {
    // A clock of the wire comes to both panels: their memories are lent, and their controls and links are those of the answer.
    pub fn bit(
        mut self,
        clock: Clock,
        left_frame: &mut [u8],
        left_lent: &Lent,
        right_frame: &mut [u8],
        right_lent: &Lent,
    ) -> Result<PairOutcome, Refusal>
        requires { Valid (state_of self.left) × Valid (state_of self.right) }
        ensures leaves { pair_handed self result left_frame.new right_frame.new ≡ pair_called (side (seen_by left_lent.now) (state_of self.left) left_frame.old) (side (seen_by right_lent.now) (state_of self.right) right_frame.old) clock }
        ensures valid { IfOk result (λ outcome. Valid (state_of outcome.pair.left) × Valid (state_of outcome.pair.right)) }
    {
        let kept = Sides {
            left: Kept {
                control: self.left.control,
                link: self.left.link,
            },
            right: Kept {
                control: self.right.control,
                link: self.right.link,
            },
        };
        let answer = lent_pair::bit(
            &mut self.left.text,
            &mut self.left.glyph,
            &mut self.left.graphic,
            &mut self.right.text,
            &mut self.right.glyph,
            &mut self.right.graphic,
            kept,
            clock,
            left_frame,
            left_lent,
            right_frame,
            right_lent,
        )?;
        self.left.control = answer.kept.left.control;
        self.left.link = answer.kept.left.link;
        self.right.control = answer.kept.right.control;
        self.right.link = answer.kept.right.link;
        Ok(PairOutcome {
            pair: self,
            counts: answer.counts,
        })
    }
}
