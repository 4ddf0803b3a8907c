// Which codes of the present screen have no glyph in the lent font, and where: a line of text for each.
ghost use Rattle.std.specs.Prelude.{◌<◌};

use controller::View;
use missing::{Code, band_row, missing_at};
use printed::digit;
use std::io;

// The line of one code: which it is, and where its cell stands on the glass.
fn print_line(rt: &HostRuntime, code: Code, row: u32, end: u32, cell: u32) -> io::Result<()>
    requires { row < end }
{
    let Code { lead, trail } = code;
    let a = char::from(digit(lead / 16));
    let b = char::from(digit(lead % 16));
    let c = char::from(digit(trail / 16));
    let d = char::from(digit(trail % 16));
    let last = end - 1;
    println!(rt; "no glyph for {a}{b}{c}{d}h: cell {cell}, rows {row} to {last}")
}

// The cells of the line that stands on the glass from `row` up to `end`, from left to right; answers whether a glyph is missing.
fn list_line(
    rt: &HostRuntime,
    text: &[u8; 128],
    view: View,
    row: u32,
    end: u32,
    length: usize,
) -> io::Result<bool>
    requires { (row < 32) × (row < end) }
{
    let mut some = false;
    for cell in 0..16 {
        if let Some(code) = missing_at(text, view, row, cell, length) {
            some = true;
            print_line(rt, code, row, end, cell)?;
        }
    }
    Ok(some)
}

// All of the glass, band by band from the top.
pub(crate) fn list(
    rt: &HostRuntime,
    text: &[u8; 128],
    view: View,
    length: usize,
) -> io::Result<()> {
    let mut some = false;
    for band in 0..3 {
        let row = band_row(view, band);
        let end = band_row(view, band + 1);
        if row < end && list_line(rt, text, view, row, end, length)? {
            some = true;
        }
    }
    if some {
        return Ok(());
    }
    rt.write_all(b"no glyph is missing\n")
}
