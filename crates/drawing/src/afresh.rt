// The whole picture, drawn afresh.
ghost use Rattle.std.specs.Prelude.{◌≡◌};
ghost use Rattle.refusals.specs.Numbers.{answer_number};
ghost use Rattle.controller.specs.Memories.{memories};
ghost use Rattle.picture.specs.Lent.{seen_by};
ghost use Rattle.picture.specs.Refusals.{drawing, drawn};

use crate::whole::paint_whole;
use controller::Control;
use picture::lent::Lent;
use refusals::Refusal;

// Draws into the frame, or refuses and leaves the frame as it was.
#[tactic(auto, unfolding(picture::specs::Refusals::drawn))]
pub fn draw(
    text: &[u8; 128],
    glyph: &[u8; 128],
    graphic: &[u8; 2048],
    control: Control,
    frame: &mut [u8],
    lent: &Lent,
) -> Result<(), Refusal>
    ensures { drawing (answer_number result) frame.new ≡ drawn (seen_by lent.now) (memories text.now glyph.now graphic.now) control frame.old }
{
    lent.check_lengths(frame.len())?;
    let frame = frame.as_mut_array::<1024>().unwrap();
    paint_whole(&lent.scene(text, glyph, graphic, control), frame);
    Ok(())
}
