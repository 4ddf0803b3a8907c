// The dots of a frame.
ghost use Rattle.std.specs.Prelude.{◌≡◌, ◌<◌};
ghost use Rattle.frame_view.specs.Dots.{dot_at};

// The dot at column x of row y: 1 where it is set.
#[tactic(auto, unfolding(crate::specs::Dots::dot_at))]
pub(crate) fn dot(frame: &[u8; 1024], x: usize, y: usize) -> u16
    requires { (x < 256) × (y < 32) }
    ensures value { result ≡ dot_at frame.now x y }
    ensures small { result < 2 }
{
    let byte = frame[32 * y + x / 8];
    u16::from((byte >> (7 - x % 8)) % 2)
}
