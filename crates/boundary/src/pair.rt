// Two panels on one wire, for other languages. The work is `pair_bytes`', so that it is not proved again with every edit of what stands here.
ghost use Rattle.std.specs.Prelude.{◌≡◌};
ghost use Rattle.controller.specs.Memories.{memories};
ghost use Rattle.picture.specs.Picture.{seen};
ghost use Rattle.pair_bytes.specs.Report.{side_bytes, pair_report, pair_reported};

use lent_pair::Clock;
use picture::lent::Lent;

// A clock of the wire comes to two panels that the caller keeps as bytes: the bit, and both selects. Answers the refusal number in bits
// 7..0, the left panel's count in bits 19..8 and the right's in bits 31..20. Refused it leaves all that it was lent. A panel's five parts are
// those of the 2,341 bytes that `zifqarell_replay` leaves, from 0, 128, 256, 2304 and 2331 on. All that is written lies apart.
pub fn zifqarell_pair_bit(
    left_text: &mut [u8; 128],
    left_glyph: &mut [u8; 128],
    left_graphic: &mut [u8; 2048],
    left_control: &mut [u8; 27],
    left_link: &mut [u8; 10],
    right_text: &mut [u8; 128],
    right_glyph: &mut [u8; 128],
    right_graphic: &mut [u8; 2048],
    right_control: &mut [u8; 27],
    right_link: &mut [u8; 10],
    bit: bool,
    left_select: bool,
    right_select: bool,
    left_frame: &mut [u8],
    left_half: &[u8],
    left_full: &[u8],
    left_phase: bool,
    right_frame: &mut [u8],
    right_half: &[u8],
    right_full: &[u8],
    right_phase: bool,
) -> u32
    ensures { pair_report result (side_bytes (memories left_text.new left_glyph.new left_graphic.new) left_control.new left_link.new left_frame.new) (side_bytes (memories right_text.new right_glyph.new right_graphic.new) right_control.new right_link.new right_frame.new) ≡ pair_reported (seen left_half.now left_full.now left_phase) (side_bytes (memories left_text.old left_glyph.old left_graphic.old) left_control.old left_link.old left_frame.old) (seen right_half.now right_full.now right_phase) (side_bytes (memories right_text.old right_glyph.old right_graphic.old) right_control.old right_link.old right_frame.old) (record { bit = bit; left = left_select; right = right_select }) }
{
    let clock = Clock {
        bit,
        left: left_select,
        right: right_select,
    };
    let left_lent = Lent {
        half: left_half,
        full: left_full,
        phase: left_phase,
    };
    let right_lent = Lent {
        half: right_half,
        full: right_full,
        phase: right_phase,
    };
    pair_bytes::bit(
        left_text,
        left_glyph,
        left_graphic,
        left_control,
        left_link,
        right_text,
        right_glyph,
        right_graphic,
        right_control,
        right_link,
        clock,
        left_frame,
        &left_lent,
        right_frame,
        &right_lent,
    )
}
