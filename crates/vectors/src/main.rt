// Document 01's readings and refusals, run: what the serial link hears, what transfers answer, the glyph numbers by either numbering, and
// every refusal of the panel's calls. What is printed is held to a stored output.
#![tactic(auto)]

use events::Numbering;
use readings::codes;
use refused::print_drawing;

mod hearing;
mod readings;
mod refused;
mod saying;

fn main(rt: HostRuntime) {
    hearing::wires(&rt);
    readings::readings(&rt);
    codes(&rt, b"9:", Numbering::By96, &[0xA1A0, 0xF7FF]);
    codes(
        &rt,
        b"by 96:",
        Numbering::By96,
        &[0xA0FF, 0xA19F, 0xA1FF, 0xA2A0, 0xF8A0, 0xA140],
    );
    codes(
        &rt,
        b"by 160:",
        Numbering::By160,
        &[
            0xA0FF, 0xA13F, 0xA140, 0xA17F, 0xA180, 0xA19F, 0xA1A0, 0xA1FF, 0xA240, 0xD7FF, 0xD840,
        ],
    );
    print_drawing(&rt, &mut [0; 1023]);
    print_drawing(&rt, &mut [0; 1025]);
    readings::counts(&rt);
    refused::refusals(&rt);
}
