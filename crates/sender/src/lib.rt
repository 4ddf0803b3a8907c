// The sender of the serial link: three bytes for a write.
#![tactic(auto)]

ghost use Rattle.std.specs.Prelude.{◌≡◌};
ghost use Rattle.refusals.specs.Numbers.{answer_number};
ghost use Rattle.sender.specs.Sender.{header_byte, three_bytes, leaving, sent};

use refusals::Refusal;

// Puts the bytes that carry a write to a register into the first three of the buffer; or refuses a shorter buffer and leaves it alone.
#[tactic(auto, unfolding(crate::specs::Sender::sent))]
pub fn send(register: bool, byte: u8, buffer: &mut [u8]) -> Result<(), Refusal>
    ensures { leaving (answer_number result) buffer.new ≡ sent register byte buffer.old }
{
    let first = buffer.first_chunk_mut::<3>().ok_or(Refusal::Buffer)?;
    *first = three_bytes(register, byte);
    Ok(())
}

// The three bytes that carry a write to a register over the serial link.
fn three_bytes(register: bool, byte: u8) -> [u8; 3]
    ensures { result ≡ three_bytes register byte }
{
    [header_byte(register), byte / 16 * 16, byte % 16 * 16]
}

fn header_byte(register: bool) -> u8
    ensures { result ≡ header_byte register }
{
    if register {
        return 0xFA;
    }
    0xF8
}
