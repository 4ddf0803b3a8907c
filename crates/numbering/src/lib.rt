// The numberings of the full font, after document 01's "The picture" and request K3.
#![tactic(auto)]

ghost use Rattle.std.specs.Prelude.{◌≡◌, ◌+◌, ◌*◌, ◌-◌, ◌<◌, ◌≤◌};
ghost use Rattle.events.specs.declared.Numbering.TheVariants.{By96, By160};
ghost use Rattle.numbering.specs.Numbering.{number_of, per_lead};

use events::Numbering;

// A lead's numbers are a page. Of the numbers on the pages before, all but 32 a page: 64 of 96, or 128 of 160, which is one shift, as the
// small board multiplies in software. `number` adds the 32s while the numberings have not parted: of two shifts of a page by constants a
// compiler makes one multiplication again.
fn all_but_32_each(numbering: Numbering, page: u16) -> u16
    requires { page < 256 }
    ensures page_value { result + page * 32 ≡ page * per_lead numbering }
    ensures within { result < 32768 }
{
    match numbering {
        Numbering::By96 => page << 6,
        Numbering::By160 => page << 7,
    }
}

// Leads to F7h with trails from A0h are numbered.
#[tactic(auto, unfolding(crate::specs::Numbering::number_of))]
fn by_96(lead: u8, trail: u8, first: u16) -> Option<u16>
    requires { (0xA1 ≤ lead) × (first ≡ (lead - 0xA1) * 96) }
    ensures { result ≡ number_of By96 lead trail }
{
    if lead > 0xF7 {
        return None;
    }
    if trail < 0xA0 {
        return None;
    }
    Some(first + (trail - 0xA0) as u16)
}

// Leads to D7h with trails 40h..7Fh, and behind them those from A0h, are numbered.
#[tactic(auto, unfolding(crate::specs::Numbering::number_of))]
fn by_160(lead: u8, trail: u8, first: u16) -> Option<u16>
    requires { (0xA1 ≤ lead) × (first ≡ (lead - 0xA1) * 160) }
    ensures { result ≡ number_of By160 lead trail }
{
    if lead > 0xD7 {
        return None;
    }
    if trail < 0x40 {
        return None;
    }
    if trail <= 0x7F {
        return Some(first + (trail - 0x40) as u16);
    }
    if trail < 0xA0 {
        return None;
    }
    Some(first + (64 + (trail - 0xA0) as u16))
}

// The number that a code of two bytes has in the full font, if one, by the numbering: from A1h on each lead has a page.
#[tactic(auto, unfolding(crate::specs::Numbering::number_of))]
pub fn number(numbering: Numbering, lead: u8, trail: u8) -> Option<u16>
    ensures { result ≡ number_of numbering lead trail }
{
    if lead < 0xA1 {
        return None;
    }
    let page = (lead - 0xA1) as u16;
    let first = all_but_32_each(numbering, page) + (page << 5);
    match numbering {
        Numbering::By96 => by_96(lead, trail, first),
        Numbering::By160 => by_160(lead, trail, first),
    }
}
