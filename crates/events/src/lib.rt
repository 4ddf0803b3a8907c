// What comes to the panel, and what of it reaches the controller.
#![tactic(auto)]

// A transfer on the parallel connector, a write with what it puts on the wires. A register of `false` means instructions
// and status, `true` means data.
#[derive(Clone, Copy)]
pub enum Transfer {
    Instruct(u8),
    Write(u8),
    Status,
    Read,
}

// How codes of two bytes are numbered in the full font: 96 to a lead, or 160.
#[derive(Clone, Copy)]
pub enum Numbering {
    By96,
    By160,
}

// What a panel is made with: its link, whether it has time, and its numbering.
#[derive(Clone, Copy)]
pub struct Made {
    pub parallel: bool,
    pub time: bool,
    pub numbering: Numbering,
}

// What reset is given: the interface pin, and the numbering that it chooses.
#[derive(Clone, Copy)]
pub struct Pin {
    pub parallel: bool,
    pub numbering: Numbering,
}

// What comes to the panel: a transfer of the parallel link, a bit of the serial one with chip select high, chip select low, reset, or
// that so many times 8 microseconds passed.
#[derive(Clone, Copy)]
pub enum Event {
    Transfer(Transfer),
    Bit(bool),
    SelectLow,
    Reset(Pin),
    Pass(u8),
}

// What of an event reaches the controller. That nothing does is a deed like the others: it has a reply.
#[derive(Clone, Copy)]
pub enum Deed {
    Nothing,
    Whole(Transfer),
    Fresh(Pin),
    Pass(u8),
}
