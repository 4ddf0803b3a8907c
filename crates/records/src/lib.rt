// One record of a capture, carried out on a panel.
#![tactic(auto)]

ghost use Rattle.std.specs.Prelude.{◌≡◌};
ghost use Rattle.picture.specs.Lent.{seen_by};
ghost use Rattle.calls.specs.State.{Valid};
ghost use Rattle.panel.specs.Handed.{state_of, stands};
ghost use Rattle.records.specs.Records.{pin_of, asks, called_in_turn, record_called};
ghost use Rattle.capture.specs.declared.kind.Kind.TheVariants as kinds;

use capture::{Kind, Record};
use controller::controls::numbering;
use events::{Event, Pin, Transfer};
use panel::{CallAnswer, Panel};
use picture::lent::Lent;
use refusals::Refusal;

// Eight bits of the serial link, highest first. On the other link the first is refused, and none is heard.
#[tactic(auto, unfolding(crate::specs::Records::called_in_turn))]
fn eight_bits(
    panel: &mut Panel,
    value: u8,
    frame: &mut [u8],
    lent: &Lent,
) -> Result<CallAnswer, Refusal>
    requires { Valid (state_of panel.old) }
    ensures leaves { stands panel.new result frame.new ≡ called_in_turn (seen_by lent.now) (state_of panel.old) frame.old (asks kinds.EightBits value) }
    ensures valid { Valid (state_of panel.new) }
{
    let mut heard = panel.hear(Event::Bit((value >> 7) % 2 == 1), frame, lent)?;
    for left in (0..7u8).rev() {
        let answered = panel.hear(Event::Bit((value >> left) % 2 == 1), frame, lent)?;
        heard = CallAnswer {
            reply: answered.reply,
            count: heard.count + answered.count,
        };
    }
    Ok(heard)
}

// A reset's value: bit 0 is the interface pin, bit 1 chooses the numbering.
fn pin_of(value: u8) -> Pin
    ensures { result ≡ pin_of value }
{
    let numbering = numbering(value / 2 % 2 == 1);
    Pin {
        parallel: value % 2 == 1,
        numbering,
    }
}

// A record that the capture's reader let pass, carried out on the panel where it stands; refused, that is as it was.
#[tactic(auto, unfolding(crate::specs::Records::record_called), using(crate::proofs::Refused::one_in_turn))]
pub fn obey(
    panel: &mut Panel,
    given: Record,
    frame: &mut [u8],
    lent: &Lent,
) -> Result<CallAnswer, Refusal>
    requires { Valid (state_of panel.old) }
    ensures leaves { stands panel.new result frame.new ≡ record_called (seen_by lent.now) given.kind given.value (state_of panel.old) frame.old }
    ensures valid { Valid (state_of panel.new) }
{
    let value = given.value;
    let event = match given.kind {
        Kind::EightBits => return eight_bits(panel, value, frame, lent),
        Kind::InstructionWrite => Event::Transfer(Transfer::Instruct(value)),
        Kind::DataWrite => Event::Transfer(Transfer::Write(value)),
        Kind::StatusRead => Event::Transfer(Transfer::Status),
        Kind::DataRead => Event::Transfer(Transfer::Read),
        Kind::ChipSelectLow => Event::SelectLow,
        Kind::Reset => Event::Reset(pin_of(value)),
        Kind::TimePasses => Event::Pass(value),
    };
    panel.hear(event, frame, lent)
}
