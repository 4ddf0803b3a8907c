// A clock of the wire on memories that a board keeps and lends. It leaves what the call by value leaves. What is lent of
// either panel stands side after side, as C lends it.
ghost use Rattle.std.specs.Prelude.{◌≡◌, IfOk};
ghost use Rattle.controller.specs.Memories.{memories};
ghost use Rattle.controller.specs.State.{InRange};
ghost use Rattle.picture.specs.Lent.{seen_by};
ghost use Rattle.calls.specs.State.{kept_state};
ghost use Rattle.lent_pair.specs.Pair.{side, pair_called};
ghost use Rattle.lent_pair.specs.Lent.{pair_lent};

use crate::wire::{comes_to, first_refusal, is_serial};
use crate::{Clock, LentPairOutcome, Sides};
use calls::{Kept, call};
use picture::lent::Lent;
use refusals::Refusal;

// Each panel takes what comes to it: the bit, or that its select is low. What that names is painted into its frame, and counted. Once the
// first refusal is passed, neither call refuses.
pub fn bit(
    left_text: &mut [u8; 128],
    left_glyph: &mut [u8; 128],
    left_graphic: &mut [u8; 2048],
    right_text: &mut [u8; 128],
    right_glyph: &mut [u8; 128],
    right_graphic: &mut [u8; 2048],
    kept: Sides<Kept>,
    clock: Clock,
    left_frame: &mut [u8],
    left_lent: &Lent,
    right_frame: &mut [u8],
    right_lent: &Lent,
) -> Result<LentPairOutcome, Refusal>
    requires { InRange kept.left.control × InRange kept.right.control }
    ensures leaves { pair_lent kept.left kept.right result (memories left_text.new left_glyph.new left_graphic.new) (memories right_text.new right_glyph.new right_graphic.new) left_frame.new right_frame.new ≡ pair_called (side (seen_by left_lent.now) (kept_state (memories left_text.old left_glyph.old left_graphic.old) kept.left) left_frame.old) (side (seen_by right_lent.now) (kept_state (memories right_text.old right_glyph.old right_graphic.old) kept.right) right_frame.old) clock }
    ensures valid { IfOk result (λ answer. InRange answer.kept.left.control × InRange answer.kept.right.control) }
{
    let left_serial = is_serial(kept.left.link);
    let right_serial = is_serial(kept.right.link);
    first_refusal(
        left_frame.len(),
        left_lent,
        right_frame.len(),
        right_lent,
        left_serial & right_serial,
    )?;
    let to_left = comes_to(clock.left, clock.bit);
    let to_right = comes_to(clock.right, clock.bit);
    let on_left = call(
        left_text,
        left_glyph,
        left_graphic,
        kept.left,
        to_left,
        left_frame,
        left_lent,
    )?;
    let on_right = call(
        right_text,
        right_glyph,
        right_graphic,
        kept.right,
        to_right,
        right_frame,
        right_lent,
    )?;
    Ok(LentPairOutcome {
        kept: Sides {
            left: on_left.kept,
            right: on_right.kept,
        },
        counts: Sides {
            left: on_left.count,
            right: on_right.count,
        },
    })
}
