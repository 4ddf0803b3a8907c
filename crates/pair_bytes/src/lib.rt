// Two panels on one wire, for a board in another language, which keeps them as bytes. Crate `boundary` exports it.
#![tactic(auto)]

ghost use Rattle.std.specs.Prelude.{◌≤◌, ◌≡◌};
ghost use Rattle.controller.specs.Memories.{memories};
ghost use Rattle.picture.specs.Lent.{seen_by};
ghost use Rattle.state_bytes.specs.Packed.{unpacked, packed};
ghost use Rattle.state_bytes.specs.LinkPacked.{link_packed, unpacked_link};
ghost use Rattle.pair_bytes.specs.Report.{side_bytes, pair_answer, pair_report, pair_reported};

use calls::Kept;
use lent_pair::{Clock, Sides};
use picture::lent::Lent;
use state_bytes::{pack, pack_link};
use unpacking::{unpack, unpack_link};

// What a panel keeps beside its memories, from its bytes. It is put in the place of its two calls: otherwise a refused clock takes half as long
// again.
#[inline(always)]
fn kept(control: &[u8; 27], link: &[u8; 10]) -> Kept
    ensures { result ≡ record { control = unpacked control.entry.now; link = unpacked_link link.now } }
{
    Kept {
        control: unpack(control),
        link: unpack_link(link),
    }
}

// And as its bytes.
fn put(kept: Kept, control: &mut [u8; 27], link: &mut [u8; 10])
    ensures { (control.new ≡ packed kept.control) × (link.new ≡ link_packed kept.link) }
{
    *control = pack(kept.control);
    *link = pack_link(kept.link);
}

// The answer of an accepted call in one number.
fn answer(counts: Sides<usize>) -> u32
    requires { (counts.left ≤ 1024) × (counts.right ≤ 1024) }
    ensures { result ≡ pair_answer 0 counts.left counts.right }
{
    ((counts.left as u32) << 8) + ((counts.right as u32) << 20)
}

// A clock of the wire, with the bit and both selects: answers the refusal number in bits 7..0, the left panel's count in bits 19..8 and the
// right's in bits 31..20. Refused it leaves all that it was lent.
pub fn bit(
    left_text: &mut [u8; 128],
    left_glyph: &mut [u8; 128],
    left_graphic: &mut [u8; 2048],
    left_control: &mut [u8; 27],
    left_link: &mut [u8; 10],
    right_text: &mut [u8; 128],
    right_glyph: &mut [u8; 128],
    right_graphic: &mut [u8; 2048],
    right_control: &mut [u8; 27],
    right_link: &mut [u8; 10],
    clock: Clock,
    left_frame: &mut [u8],
    left_lent: &Lent,
    right_frame: &mut [u8],
    right_lent: &Lent,
) -> u32
    ensures { pair_report result (side_bytes (memories left_text.new left_glyph.new left_graphic.new) left_control.new left_link.new left_frame.new) (side_bytes (memories right_text.new right_glyph.new right_graphic.new) right_control.new right_link.new right_frame.new) ≡ pair_reported (seen_by left_lent.now) (side_bytes (memories left_text.old left_glyph.old left_graphic.old) left_control.old left_link.old left_frame.old) (seen_by right_lent.now) (side_bytes (memories right_text.old right_glyph.old right_graphic.old) right_control.old right_link.old right_frame.old) clock }
{
    let kept = Sides {
        left: kept(left_control, left_link),
        right: kept(right_control, right_link),
    };
    match lent_pair::bit(
        left_text,
        left_glyph,
        left_graphic,
        right_text,
        right_glyph,
        right_graphic,
        kept,
        clock,
        left_frame,
        left_lent,
        right_frame,
        right_lent,
    ) {
        Ok(outcome) => {
            put(outcome.kept.left, left_control, left_link);
            put(outcome.kept.right, right_control, right_link);
            answer(outcome.counts)
        }
        Err(refusal) => u32::from(u8::from(refusal)),
    }
}
