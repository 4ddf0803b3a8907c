// A state, and where a replay stopped, spelled into bytes for other languages.
#![tactic(auto)]

ghost use Rattle.std.specs.Prelude.{◌≡◌};
ghost use Rattle.panel.specs.Handed.{state_of};
ghost use Rattle.spelling.specs.Spelled.{state_bytes, last_bytes};

use panel::Panel;
use state_bytes::{pack, pack_link};

// The whole state, part by part.
#[tactic(auto, unfolding(crate::specs::Spelled::state_bytes))]
pub fn spell_state(panel: Panel, out: &mut [u8; 2341])
    ensures { out.new ≡ state_bytes (state_of panel) }
{
    let (text, rest) = out.split_at_mut(128);
    let (glyph, rest) = rest.split_at_mut(128);
    let (graphic, rest) = rest.split_at_mut(2048);
    let (control, link) = rest.split_at_mut(27);
    text.copy_from_slice(&panel.text);
    glyph.copy_from_slice(&panel.glyph);
    graphic.copy_from_slice(&panel.graphic);
    control.copy_from_slice(&pack(panel.control));
    link.copy_from_slice(&pack_link(panel.link));
}

// The place where the replay stopped, and what the last accepted record answered.
#[tactic(auto, unfolding(crate::specs::Spelled::last_bytes))]
pub fn last_bytes(place: usize, reply: u8, count: usize) -> [u8; 11]
    ensures { result ≡ last_bytes place reply count }
{
    let mut last = [0; 11];
    last[..8].copy_from_slice(&place.to_le_bytes());
    last[8] = reply;
    last[9..].copy_from_slice(&count.to_le_bytes()[..2]);
    last
}
