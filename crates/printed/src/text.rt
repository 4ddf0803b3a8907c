// The printed lines. Each writer puts its text at a place of the buffer, and answers the place behind it. The two go side by side: memory is
// fixed, and a struct that holds the lent buffer would have each clause name its loan.
ghost use Rattle.std.specs.Prelude.{◌≡◌, ◌+◌, ◌≤◌, ◌<◌, length};
ghost use Rattle.printed.specs.Text.{digit as hexDigit, decimal, shown as shownAs, middle, line, end_line, stop_line, last_line, Put, begun_with, begun_as, Counts, has_room};

use crate::RecordAnswer;
use capture::Kind;

// A hex digit, in capitals, which `char::from_digit` does not give.
pub fn digit(d: u8) -> u8
    requires { d < 16 }
    ensures { result ≡ hexDigit d }
{
    if d < 10 { b'0' + d } else { 0x37 + d }
}

// A character of a read's reply; a dash for other kinds.
fn shown(kind: Kind, character: u8) -> u8
    ensures { result ≡ shownAs kind character }
{
    match kind {
        Kind::StatusRead | Kind::DataRead => character,
        _ => b'-',
    }
}

// How many digits a number has in decimal.
#[tactic(auto, unfolding(crate::specs::Text::decimal))]
fn digits(n: usize) -> usize
    ensures counted { result ≡ length (decimal 20 n) }
    ensures few { result ≤ 20 }
{
    if n == 0 {
        return 1;
    }
    n.ilog10() as usize + 1
}

// Whether the longest line that a record of this number could have fits into the rest of a buffer, and whether the records
// with it can be counted.
#[tactic(auto, unfolding(crate::specs::Text::has_room))]
pub fn has_room(rest: usize, place: usize) -> bool
    ensures { result ≡ has_room rest place }
{
    digits(place) + 9 <= rest && place < usize::MAX
}

// Puts a number in decimal, with at most so many digits. By hand: what `write!` answers may be an error, and no clause rules it out.
#[tactic(auto, unfolding(crate::specs::Text::decimal))]
fn put_decimal(out: &mut [u8], at: usize, most: usize, n: usize) -> usize
    requires { at + length (decimal most n) ≤ length out.old }
    ensures { Put out.old at (decimal most n) out.new result }
{
    if most == 0 {
        return at;
    }
    let next = if n < 10 {
        at
    } else {
        put_decimal(out, at, most - 1, n / 10)
    };
    out[next] = b'0' + (n % 10) as u8;
    next + 1
}

// Puts a text.
#[tactic(auto, using(crate::proofs::Writing::put_copied))]
fn put(out: &mut [u8], at: usize, text: &[u8]) -> usize
    requires { at + length text.now ≤ length out.old }
    ensures { Put out.old at text.now out.new result }
{
    let next = at + text.len();
    out[at..next].copy_from_slice(text);
    next
}

// Puts a record's reply, between two spaces.
fn put_reply(out: &mut [u8], at: usize, kind: Kind, reply: u8) -> usize
    requires { at + 4 ≤ length out.old }
    ensures { Put out.old at (middle kind reply) out.new result }
{
    let high = shown(kind, digit(reply / 16));
    let low = shown(kind, digit(reply % 16));
    put(out, at, &[b' ', high, low, b' '])
}

// Puts the line of an accepted record.
#[tactic(auto, unfolding(crate::specs::Text::line))]
pub fn put_line(out: &mut [u8], at: usize, place: usize, answer: RecordAnswer) -> usize
    requires { at + length (line place answer) ≤ length out.old }
    ensures { Put out.old at (line place answer) out.new result }
{
    let first = put_decimal(out, at, 20, place);
    let second = put_reply(out, first, answer.kind, answer.reply);
    let third = put_decimal(out, second, 20, answer.count);
    put(out, third, b"\n")
}

// Puts `end N`.
#[tactic(auto, unfolding(crate::specs::Text::end_line))]
fn put_end(out: &mut [u8], place: usize) -> usize
    requires { length (end_line place) ≤ length out.old }
    ensures { Put out.old 0 (end_line place) out.new result }
{
    let word = put(out, 0, b"end ");
    let number = put_decimal(out, word, 20, place);
    put(out, number, b"\n")
}

// Puts `stop N code`.
#[tactic(auto, unfolding(crate::specs::Text::stop_line))]
fn put_stop(out: &mut [u8], place: usize, number: u8) -> usize
    requires { length (stop_line place number) ≤ length out.old }
    ensures { Put out.old 0 (stop_line place number) out.new result }
{
    let word = put(out, 0, b"stop ");
    let first = put_decimal(out, word, 20, place);
    let second = put(out, first, b" ");
    let third = put_decimal(out, second, 20, number as usize);
    put(out, third, b"\n")
}

// Puts the last line, by the number with which a replay stopped; answers how long it is. Any number has its line, as `last_line` says, and so
// it is no `Refusal`. `counts` serves whoever lends it on.
#[tactic(auto, using(crate::proofs::Writing::end_length, crate::proofs::Writing::stop_length, crate::proofs::Writing::put_counts))]
pub fn put_last(out: &mut [u8; 48], place: usize, number: u8) -> usize
    ensures written { begun_as result out.new ≡ begun_with out.old (last_line place number) }
    ensures counts { Counts result out.new }
{
    if number == 0 {
        return put_end(out, place);
    }
    put_stop(out, place, number)
}
