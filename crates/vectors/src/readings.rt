// Document 01's readings 1 to 8 by the panel's transfers, and the vector 80h, data 2Dh, 80h, two reads; its glyph numbers.
ghost use Rattle.std.specs.Prelude.{◌≡◌, IfOk};
ghost use Rattle.calls.specs.State.{Valid};
ghost use Rattle.panel.specs.Handed.{state_of, panel_after};

use crate::saying::{print, print_byte, print_word};
use events::Transfer::{Instruct, Read, Status, Write};
use events::{Made, Numbering, Transfer};
use numbering::number;
use panel::{Outcome, Panel};
use picture::lent::Lent;
use refusals::Refusal;

// A panel of either link, without time.
pub(crate) fn fresh(parallel: bool) -> Panel
    ensures { Valid (state_of result) }
{
    Panel::fresh(Made {
        parallel,
        time: false,
        numbering: Numbering::By96,
    })
}

// Right fonts.
pub(crate) const RIGHT: Lent<'static> = Lent {
    half: &[0; 2048],
    full: &[0; 32],
    phase: false,
};

// A transfer with right buffers.
pub(crate) fn transferred(panel: Panel, given: Transfer) -> Result<Outcome, Refusal>
    requires { Valid (state_of panel) }
    ensures { IfOk result (λ outcome. Valid (state_of outcome.panel)) }
{
    panel.transfer(given, &mut [0; 1024], &RIGHT)
}

// What there is after a call: of a refused one the panel before it, reply 0 and count 0.
pub(crate) fn after(before: Panel, answer: Result<Outcome, Refusal>) -> Outcome
    requires before { Valid (state_of before) }
    requires answer { IfOk answer (λ outcome. Valid (state_of outcome.panel)) }
    ensures panel { result.panel ≡ panel_after before answer }
    ensures valid { Valid (state_of result.panel) }
{
    answer.unwrap_or(Outcome {
        panel: before,
        reply: 0,
        count: 0,
    })
}

// Prints what a call answered, its refusal number, reply and count, and hands the panel on.
pub(crate) fn told(
    rt: &HostRuntime,
    label: &[u8],
    before: Panel,
    answer: Result<Outcome, Refusal>,
) -> Panel
    requires before { Valid (state_of before) }
    requires answer { IfOk answer (λ outcome. Valid (state_of outcome.panel)) }
    ensures panel { result ≡ panel_after before answer }
    ensures valid { Valid (state_of result) }
{
    let number = refusals::number(&answer);
    let Outcome {
        panel,
        reply,
        count,
    } = after(before, answer);
    print(rt, label);
    let _ = print!(rt; "{number} {reply:02x} {count}");
    panel
}

// The replies of a script's reads, then RE, G, text word 0, and the graphic word at row 3, column 15.
fn reading(rt: &HostRuntime, label: &[u8], script: &[Transfer]) {
    print(rt, label);
    let mut panel = fresh(true);
    for given in script {
        let outcome = after(panel, transferred(panel, *given));
        if matches!(given, Status | Read) {
            print_byte(rt, b" ", outcome.reply);
        }
        panel = outcome.panel;
    }
    let function = panel.control.function;
    let re = u8::from(function.re);
    let g = u8::from(function.g);
    let _ = print!(rt; "; RE {re}, G {g}");
    print_word(rt, b", text ", panel.text[0], panel.text[1]);
    print_word(rt, b", graphic ", panel.graphic[126], panel.graphic[127]);
    print(rt, b"\n");
}

pub(crate) fn print_state(rt: &HostRuntime, panel: Panel) {
    print_word(rt, b", word 0 ", panel.text[0], panel.text[1]);
    print_byte(rt, b", counter ", panel.control.place.counter);
    print(rt, b"\n");
}

// Every answer of a script.
fn counted(rt: &HostRuntime, label: &[u8], script: &[Transfer]) {
    print(rt, label);
    let mut panel = fresh(true);
    for given in script {
        panel = told(rt, b" | ", panel, transferred(panel, *given));
    }
    print_state(rt, panel);
}

pub(crate) fn readings(rt: &HostRuntime) {
    reading(rt, b"1:", &[Status]);
    reading(rt, b"2:", &[Instruct(0x85), Status]);
    reading(
        rt,
        b"4:",
        &[
            Instruct(0x80),
            Write(0x2D),
            Write(0x37),
            Instruct(0x80),
            Read,
            Read,
            Read,
        ],
    );
    reading(
        rt,
        b"6:",
        &[
            Instruct(0x04),
            Instruct(0x80),
            Write(0x2D),
            Write(0x37),
            Status,
        ],
    );
    reading(rt, b"7, 36h:", &[Instruct(0x36)]);
    reading(rt, b"7, 36h again:", &[Instruct(0x36), Instruct(0x36)]);
    reading(
        rt,
        b"8:",
        &[
            Instruct(0x34),
            Instruct(0x36),
            Instruct(0x83),
            Instruct(0x8F),
            Write(0xAA),
            Write(0x55),
            Status,
        ],
    );
    reading(
        rt,
        b"80h, data 2Dh, 80h, two reads:",
        &[Instruct(0x80), Write(0x2D), Instruct(0x80), Read, Read],
    );
}

// Readings 3 and 5, with every answer.
pub(crate) fn counts(rt: &HostRuntime) {
    counted(
        rt,
        b"reading 3",
        &[Instruct(0x80), Write(0x2D), Write(0x37), Status],
    );
    counted(
        rt,
        b"reading 5",
        &[Instruct(0xBF), Write(0x2D), Write(0x37), Status],
    );
}

// The number of a code, or a dash where it has none.
fn print_code(rt: &HostRuntime, numbering: Numbering, code: u16) {
    let [lead, trail] = code.to_be_bytes();
    let _ = match number(numbering, lead, trail) {
        Some(n) => print!(rt; " {code:04x} {n}"),
        None => print!(rt; " {code:04x} -"),
    };
}

// The numbers of codes, by one numbering.
pub(crate) fn codes(rt: &HostRuntime, label: &[u8], numbering: Numbering, codes: &[u16]) {
    print(rt, label);
    for code in codes {
        print_code(rt, numbering, *code);
    }
    print(rt, b"\n");
}
