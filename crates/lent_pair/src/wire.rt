// What comes to a panel at a clock, and what the pair refuses.
ghost use Rattle.std.specs.Prelude.{◌≡◌, length};
ghost use Rattle.links.specs.Idle.{is_serial};
ghost use Rattle.refusals.specs.Numbers.{answer_number};
ghost use Rattle.picture.specs.Refusals.{refusal_of};
ghost use Rattle.lent_pair.specs.Pair.{comes_to, first_refusal};

use events::Event;
use links::Link;
use picture::lent::Lent;
use refusals::Refusal;

// The bit where the panel's select is high; else that its select is low.
pub(crate) fn comes_to(select: bool, bit: bool) -> Event
    ensures { result ≡ comes_to select bit }
{
    if select {
        return Event::Bit(bit);
    }
    Event::SelectLow
}

pub(crate) fn is_serial(link: Link) -> bool
    ensures { result ≡ is_serial link }
{
    matches!(link, Link::Serial(_))
}

// The first refusal: that of the left panel's frame and fonts, that of the right's, or that not both panels are serial.
pub(crate) fn first_refusal(
    left_frame: usize,
    left: &Lent,
    right_frame: usize,
    right: &Lent,
    serial: bool,
) -> Result<(), Refusal>
    ensures { answer_number result ≡ first_refusal (refusal_of left_frame (length left.now.half.now) (length left.now.full.now)) (refusal_of right_frame (length right.now.half.now) (length right.now.full.now)) serial }
{
    left.check_lengths(left_frame)?;
    right.check_lengths(right_frame)?;
    if !serial {
        return Err(Refusal::OtherLink);
    }
    Ok(())
}
