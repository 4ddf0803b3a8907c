// The instruction table of document 01: what a byte says in each of the two instruction sets.
#![tactic(auto)]

ghost use Rattle.std.specs.Prelude.{◌≡◌};
ghost use Rattle.base.specs.Bits.{bits5_0};
ghost use Rattle.table.specs.declared.Instruction.TheVariants.{GlyphAddress, Scroll};
ghost use Rattle.table.specs.Touches.{touches};
ghost use Rattle.table.specs.Table.{said, basic_column, extended_column, moving, function_set, if_sr0, if_sr1};

// The memory that the address counter speaks of.
#[derive(Clone, Copy, PartialEq, Eq)]
pub enum Target {
    Text,
    Glyph,
    Graphic,
}

// What the table asks for beside the byte.
#[derive(Clone, Copy)]
pub struct Modes {
    pub re: bool,
    pub sr: bool,
    pub target: Target,
}

// An entry of the table, with the values that the byte gives it.
#[derive(Clone, Copy)]
pub enum Instruction {
    Ignored,
    Clear,
    Home,
    EntryMode {
        id: bool,
        s: bool,
    },
    Display {
        display: bool,
        cursor: bool,
        blink: bool,
    },
    MoveCursor {
        right: bool,
    },
    MoveDisplay {
        right: bool,
    },
    FunctionSet {
        dl: bool,
        re: bool,
        g: bool,
    },
    GlyphAddress(u8),
    TextAddress(u8),
    Standby,
    SetSr(bool),
    ToggleReverse(u8),
    Scroll(u8),
    GraphicAddress(u8),
}

// What an instruction touches.
#[derive(Clone, Copy)]
pub enum Touch {
    // An ignored code.
    Nothing,
    // An address set or a cursor move: the counter's cell, before and after.
    Counter,
    // Every other one: all of the glass.
    All,
    // Clear: all of the glass, and the text.
    AllAndText,
}

// What a byte says in the instruction set that RE chooses.
#[tactic(auto, unfolding(crate::specs::Table::said))]
pub fn decode(modes: Modes, byte: u8) -> Instruction
    ensures { result ≡ said modes byte }
{
    if modes.re {
        return extended(modes, byte);
    }
    basic(modes, byte)
}

// The column RE = 0.
#[tactic(auto, unfolding(crate::specs::Table::row_of))]
fn basic(modes: Modes, byte: u8) -> Instruction
    ensures { result ≡ basic_column modes byte }
{
    let target = modes.target;
    match byte {
        0x00 => Instruction::Ignored,
        0x01 => Instruction::Clear,
        0x02..=0x03 => Instruction::Home,
        0x04..=0x07 => Instruction::EntryMode {
            id: byte / 2 % 2 == 1,
            s: byte / 1 % 2 == 1,
        },
        0x08..=0x0F => Instruction::Display {
            display: byte / 4 % 2 == 1,
            cursor: byte / 2 % 2 == 1,
            blink: byte / 1 % 2 == 1,
        },
        0x10..=0x1F => moving(target, byte),
        0x20..=0x3F => function_set(byte),
        0x40..=0x7F => glyph_address(modes.sr, byte),
        0x80..=0xFF => Instruction::TextAddress(byte % 64),
    }
}

// The column RE = 1. Codes that are ignored alike keep an arm each, as they have a row each.
#[tactic(auto, unfolding(crate::specs::Table::row_of))]
fn extended(modes: Modes, byte: u8) -> Instruction
    ensures { result ≡ extended_column modes byte }
{
    match byte {
        0x00 => Instruction::Ignored,
        0x01 => Instruction::Standby,
        0x02..=0x03 => Instruction::SetSr(byte / 1 % 2 == 1),
        0x04..=0x07 => Instruction::ToggleReverse(byte),
        0x08..=0x0F => Instruction::Ignored,
        0x10..=0x1F => Instruction::Ignored,
        0x20..=0x3F => function_set(byte),
        0x40..=0x7F => scroll(modes.sr, byte),
        0x80..=0xFF => Instruction::GraphicAddress(byte % 64),
    }
}

// 10h..1Fh: a cursor move where the target is text, or a display move.
fn moving(target: Target, byte: u8) -> Instruction
    ensures { result ≡ moving target byte }
{
    let right = byte / 4 % 2 == 1;
    if byte / 8 % 2 == 1 {
        return Instruction::MoveDisplay { right };
    }
    match target {
        Target::Text => Instruction::MoveCursor { right },
        Target::Glyph | Target::Graphic => Instruction::Ignored,
    }
}

// 20h..3Fh, the same in both columns.
fn function_set(byte: u8) -> Instruction
    ensures { result ≡ function_set byte }
{
    Instruction::FunctionSet {
        dl: byte / 16 % 2 == 1,
        re: byte / 4 % 2 == 1,
        g: byte / 2 % 2 == 1,
    }
}

// 40h..7Fh with RE = 0: ignored while SR = 1.
fn glyph_address(sr: bool, byte: u8) -> Instruction
    ensures { result ≡ if_sr0 sr (GlyphAddress (bits5_0 byte)) }
{
    if sr {
        return Instruction::Ignored;
    }
    Instruction::GlyphAddress(byte % 64)
}

// 40h..7Fh with RE = 1: ignored while SR = 0.
fn scroll(sr: bool, byte: u8) -> Instruction
    ensures { result ≡ if_sr1 sr (Scroll (bits5_0 byte)) }
{
    if sr {
        return Instruction::Scroll(byte % 64);
    }
    Instruction::Ignored
}

// What an instruction touches. Each has its arm, so that a new one has to be decided here.
pub fn touches(instruction: Instruction) -> Touch
    ensures { result ≡ touches instruction }
{
    match instruction {
        Instruction::Ignored => Touch::Nothing,
        Instruction::Clear => Touch::AllAndText,
        Instruction::Home => Touch::All,
        Instruction::EntryMode { .. } => Touch::All,
        Instruction::Display { .. } => Touch::All,
        Instruction::MoveCursor { .. } => Touch::Counter,
        Instruction::MoveDisplay { .. } => Touch::All,
        Instruction::FunctionSet { .. } => Touch::All,
        Instruction::GlyphAddress(_) => Touch::Counter,
        Instruction::TextAddress(_) => Touch::Counter,
        Instruction::Standby => Touch::All,
        Instruction::SetSr(_) => Touch::All,
        Instruction::ToggleReverse(_) => Touch::All,
        Instruction::Scroll(_) => Touch::All,
        Instruction::GraphicAddress(_) => Touch::Counter,
    }
}
