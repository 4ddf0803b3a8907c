// Busy, with time: what is lost, what each transfer costs, and how time passes.
#![tactic(auto)]

ghost use Rattle.std.specs.Prelude.{◌≡◌, ◌≤◌};
ghost use Rattle.time.specs.Time.{busy, busy_bit, lost, instruction_cost, cost, charged, elapsed};

use controller::{Control, Time};
use events::Transfer;
use table::Touch;

fn is_busy(control: Control) -> bool
    ensures { result ≡ busy control }
{
    0 < control.time.remaining
}

// Bit 7 of a status read.
pub fn busy_bit(control: Control) -> u8
    ensures value { result ≡ busy_bit control }
    ensures small { result ≤ 128 }
{
    if is_busy(control) {
        return 0x80;
    }
    0
}

// While busy everything is lost but a status read.
pub fn is_lost(control: Control, transfer: Transfer) -> bool
    ensures { result ≡ lost control transfer }
{
    is_busy(control) && !matches!(transfer, Transfer::Status)
}

// In microseconds, by what the instruction touches: an ignored code touches nothing, and only clear touches the text.
fn instruction_cost(touch: Touch) -> u16
    ensures { result ≡ instruction_cost touch }
{
    match touch {
        Touch::Nothing => 0,
        Touch::Counter | Touch::All => 72,
        Touch::AllAndText => 1600,
    }
}

#[tactic(auto, unfolding(table::specs::Table::said))]
pub fn cost(control: Control, transfer: Transfer) -> u16
    ensures { result ≡ cost control transfer }
{
    match transfer {
        Transfer::Instruct(byte) => {
            let instruction = table::decode(control.modes(), byte);
            instruction_cost(table::touches(instruction))
        }
        Transfer::Write(_) => 72,
        Transfer::Status => 0,
        Transfer::Read => 72,
    }
}

// What costs something makes a panel with time busy for as long.
#[tactic(auto, unfolding(table::specs::Table::said))]
pub fn charged(time: Time, cost: u16) -> Time
    ensures { result ≡ charged cost time }
{
    if !time.timed || cost == 0 {
        return time;
    }
    Time {
        timed: time.timed,
        remaining: cost,
    }
}

// The remaining time falls to 0 and no lower.
pub fn elapsed(time: Time, eights: u8) -> Time
    ensures { result ≡ elapsed eights time }
{
    Time {
        remaining: time.remaining.saturating_sub(u16::from(eights) * 8),
        ..time
    }
}
