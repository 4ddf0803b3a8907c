// Hears serial wires bit by bit, each from an idle link, and prints what was received: writes from the sender, document 01's
// readings 11 and 12, the read that it warns of, and wires on which a receiver that hunts, counts or keeps sync wrongly
// would receive something else.
use crate::saying::{print, print_byte};
use serial::Receiver;

// A receiver, and whether it has received anything yet: for that there is one word at the end.
#[derive(Clone, Copy)]
struct Ear {
    receiver: Receiver,
    any: bool,
}

pub(crate) fn wires(rt: &HostRuntime) {
    print(rt, b"instruction 30h from the sender:");
    sent(rt, false, 0x30);
    print(rt, b"data 2Dh from the sender:");
    sent(rt, true, 0x2D);
    print(rt, b"reading 11, fa 20 d0:");
    wire(rt, b"\xFA\x20\xD0");
    print(rt, b"reading 12, fa 20 d1:");
    wire(rt, b"\xFA\x20\xD1");
    print(rt, b"two bytes under one header, fa 20 d0 30 70:");
    wire(rt, b"\xFA\x20\xD0\x30\x70");
    print(rt, b"three writes, f8 80 00 fa 20 d0 fa 30 70:");
    wire(rt, b"\xF8\x80\x00\xFA\x20\xD0\xFA\x30\x70");
    damaged_wires(rt);
}

fn damaged_wires(rt: &HostRuntime) {
    print(rt, b"read data, 11111110, fe 20 d0:");
    wire(rt, b"\xFE\x20\xD0");
    print(rt, b"five ones only inside that header, fe 08 34 00:");
    wire(rt, b"\xFE\x08\x34\x00");
    print(rt, b"third header bit 1, f9 20 d0:");
    wire(rt, b"\xF9\x20\xD0");
    print(rt, b"the fifth one among the zeros, fa f8 20 d0:");
    wire(rt, b"\xFA\xF8\x20\xD0");
    print(rt, b"four ones and a fifth, 0f 82 0d 00:");
    wire(rt, b"\x0F\x82\x0D\x00");
    print(rt, b"chip select low before the fifth:");
    cut(rt, b"\x0F", b"\x82\x0D\x00");
}

// A write as the sender puts it into a buffer.
fn sent(rt: &HostRuntime, register: bool, byte: u8) {
    let mut buffer = [0u8; 3];
    let _ = sender::send(register, byte, &mut buffer);
    wire(rt, &buffer);
}

fn wire(rt: &HostRuntime, bytes: &[u8]) {
    let mut ear = Ear::idle();
    ear.hear(rt, bytes);
    ear.end(rt);
}

// Chip select goes low between the bytes before and after.
fn cut(rt: &HostRuntime, before: &[u8], after: &[u8]) {
    let mut ear = Ear::idle();
    ear.hear(rt, before);
    ear.receiver = serial::select_low(ear.receiver);
    ear.hear(rt, after);
    ear.end(rt);
}

impl Ear {
    fn idle() -> Ear {
        Ear {
            receiver: serial::idle_receiver(),
            any: false,
        }
    }

    // Each byte goes over the wire with its highest bit first.
    fn hear(&mut self, rt: &HostRuntime, bytes: &[u8]) {
        for byte in bytes {
            for shift in (0..8u32).rev() {
                self.hear_bit(rt, *byte >> shift & 1 == 1);
            }
        }
    }

    fn hear_bit(&mut self, rt: &HostRuntime, bit: bool) {
        let heard = serial::hear(self.receiver, bit);
        self.receiver = heard.receiver;
        if let Some(received) = heard.received {
            self.any = true;
            let label: &[u8] = if received.register {
                b" data "
            } else {
                b" instruction "
            };
            print_byte(rt, label, received.byte);
        }
    }

    fn end(self, rt: &HostRuntime) {
        if !self.any {
            print(rt, b" nothing");
        }
        print(rt, b"\n");
    }
}
