// Files read into lent buffers. Where that goes wrong, or a file has a wrong length, it has been said, and there is no count.
ghost use Rattle.std.specs.Prelude.{◌≡◌, IfSome, length};
ghost use Rattle.host.specs.Counts.{IsPrefixLen};

use crate::saying::{failed, wrong_length};
use host::{fill, opened, word_at};
use refusals::Refusal;

// Reads a file, as far as the buffer goes: how many bytes came.
fn load(rt: &HostRuntime, name: &[u8], buffer: &mut [u8]) -> Option<usize>
    ensures { IfSome result (λ count. IsPrefixLen count buffer.new) }
{
    let mut file = match opened(rt, name) {
        Ok(file) => file,
        Err(error) => {
            failed(rt, name, error);
            return None;
        }
    };
    let filled = fill(&mut file, buffer);
    if let Some(error) = filled.failure {
        failed(rt, name, error);
        return None;
    }
    Some(filled.count)
}

// Reads the font that an argument names. There is room for one byte more than the longest has.
fn font<F: FnOnce(usize) -> bool>(
    rt: &HostRuntime,
    at: usize,
    buffer: &mut [u8],
    fits: F,
    what: &[u8],
    refusal: Refusal,
) -> Option<usize>
    requires { F.IsAlwaysCallable fits }
    ensures { IfSome result (λ count. IsPrefixLen count buffer.new) }
{
    let mut room = [0u8; 4096];
    // What a word asked for was looked at when all were read: it is there, and fits.
    let name = word_at(rt, at, &mut room);
    let count = load(rt, name, buffer)?;
    if !fits(count) {
        wrong_length(rt, name, what, count, buffer.len(), refusal);
        return None;
    }
    Some(count)
}

// Reads the half font that an argument names over the one that is there.
pub fn half_font(rt: &HostRuntime, at: Option<usize>, half: &mut [u8; 2049]) -> Option<usize>
    ensures { IfSome result (λ count. IsPrefixLen count half.new) }
{
    let Some(at) = at else {
        return Some(2048);
    };
    font(
        rt,
        at,
        half,
        |count| count == 2048,
        b"a half font has 2,048 bytes",
        Refusal::HalfFont,
    )
}

// Reads the full font that an argument names; it is empty where none does.
pub fn full_font(rt: &HostRuntime, at: Option<usize>, full: &mut [u8; 281601]) -> Option<usize>
    ensures { IfSome result (λ count. IsPrefixLen count full.new) }
{
    let Some(at) = at else {
        return Some(0);
    };
    font(
        rt,
        at,
        full,
        |count| count % 32 == 0,
        b"a full font is a multiple of 32 bytes, at most 281,600",
        Refusal::FullFont,
    )
}

// Room for the longest full font and one byte more, which 281,601 bytes or more fill: no multiple of 32.
pub fn full_buffer() -> [u8; 281601]
    ensures { 281601 ≡ length result }
{
    [0; 281601]
}
