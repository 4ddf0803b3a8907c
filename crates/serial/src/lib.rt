// The serial link: a receiver that hears one bit at a time.
#![tactic(auto)]

ghost use Rattle.std.specs.Prelude.{◌≡◌};
ghost use Rattle.serial.specs.declared.Sync.TheVariants.{Body};
ghost use Rattle.serial.specs.Serial.{counted, after_header, header_bit, pushed, body_bit, completed, heard, idle_receiver, after_select_low};

// How much of a header has come.
#[derive(Clone, Copy)]
pub enum Header {
    Begun,
    WithRead(bool),
    WithRegister { read: bool, register: bool },
}

// Outside a header: out of sync, as the document says it and so no Option of a body; or in a body, with the bits seen of the next byte and
// the data among them.
#[derive(Clone, Copy)]
pub enum Sync {
    Lost,
    Body { register: bool, seen: u8, byte: u8 },
}

// Where the serial receiver stands. There is a run of ones only outside a header.
#[derive(Clone, Copy)]
pub enum Receiver {
    Inside(Header),
    Outside { run: u8, sync: Sync },
}

// A byte that is to act, and the register that it is for.
#[derive(Clone, Copy)]
pub struct Received {
    pub register: bool,
    pub byte: u8,
}

// What a bit leaves: where the receiver stands then, and the byte that the bit completed, if one.
#[derive(Clone, Copy)]
pub struct Heard {
    pub receiver: Receiver,
    pub received: Option<Received>,
}

// One serial bit, with chip select high.
#[tactic(auto, unfolding(crate::specs::Serial::heard))]
pub fn hear(receiver: Receiver, bit: bool) -> Heard
    ensures { result ≡ heard receiver bit }
{
    match receiver {
        Receiver::Inside(header) => Heard {
            receiver: header_bit(header, bit),
            received: None,
        },
        Receiver::Outside { run, sync } => Heard {
            receiver: counted(run, bit, body_bit(sync, bit)),
            received: completed(sync, bit),
        },
    }
}

// Chip select low, wherever the receiver stood.
pub fn select_low(receiver: Receiver) -> Receiver
    ensures { result ≡ after_select_low receiver }
{
    idle_receiver()
}

// Out of sync, and no run of ones.
pub fn idle_receiver() -> Receiver
    ensures { result ≡ idle_receiver }
{
    Receiver::Outside {
        run: 0,
        sync: Sync::Lost,
    }
}

// One of the three bits of a header.
#[tactic(auto, unfolding(crate::specs::Serial::header_bit))]
fn header_bit(header: Header, bit: bool) -> Receiver
    ensures { result ≡ header_bit header bit }
{
    match header {
        Header::Begun => Receiver::Inside(Header::WithRead(bit)),
        Header::WithRead(read) => Receiver::Inside(Header::WithRegister {
            read,
            register: bit,
        }),
        Header::WithRegister { read, register } => Receiver::Outside {
            run: 0,
            sync: after_header(read, register, bit),
        },
    }
}

// When all three have come: only a write with a third bit of 0 begins a body.
#[tactic(auto, unfolding(crate::specs::Serial::after_header))]
fn after_header(read: bool, register: bool, third: bool) -> Sync
    ensures { result ≡ after_header read register third }
{
    if read || third {
        return Sync::Lost;
    }
    body(register, 0, 0)
}

// A bit outside a header as the run of ones takes it: the fifth one begins a header and drops what was half received.
#[tactic(auto, unfolding(crate::specs::Serial::counted))]
fn counted(run: u8, bit: bool, sync: Sync) -> Receiver
    ensures { result ≡ counted run bit sync }
{
    if !bit {
        return Receiver::Outside { run: 0, sync };
    }
    if run < 4 {
        return Receiver::Outside { run: run + 1, sync };
    }
    Receiver::Inside(Header::Begun)
}

// The same bit as the body takes it: data, or one of the zeros that follow.
#[tactic(auto, unfolding(crate::specs::Serial::body_bit))]
fn body_bit(sync: Sync, bit: bool) -> Sync
    ensures { result ≡ body_bit sync bit }
{
    match sync {
        Sync::Lost => Sync::Lost,
        Sync::Body {
            register,
            seen,
            byte,
        } => {
            if seen % 8 < 4 {
                return body(register, seen + 1, pushed(byte, bit));
            }
            if bit {
                return Sync::Lost;
            }
            if seen < 15 {
                return body(register, seen + 1, byte);
            }
            body(register, 0, 0)
        }
    }
}

// The byte that the bit completes, if it is the last zero.
#[tactic(auto, unfolding(crate::specs::Serial::completed))]
fn completed(sync: Sync, bit: bool) -> Option<Received>
    ensures { result ≡ completed sync bit }
{
    if bit {
        return None;
    }
    match sync {
        Sync::Lost => None,
        Sync::Body {
            register,
            seen,
            byte,
        } => {
            if seen % 8 < 4 || seen < 15 {
                return None;
            }
            Some(Received { register, byte })
        }
    }
}

fn body(register: bool, seen: u8, byte: u8) -> Sync
    ensures { result ≡ Body register seen byte }
{
    Sync::Body {
        register,
        seen,
        byte,
    }
}

// A data bit comes in at the low end.
fn pushed(byte: u8, bit: bool) -> u8
    ensures { result ≡ pushed byte bit }
{
    if bit {
        return byte % 128 * 2 + 1;
    }
    byte % 128 * 2
}
