// The calls by value: the panel goes in, and the next one is handed on. They are document 01's calls, by its names.
ghost use Rattle.std.specs.Prelude.{◌≡◌, IfOk};
ghost use Rattle.refusals.specs.Numbers.{answer_number};
ghost use Rattle.picture.specs.Lent.{seen_by};
ghost use Rattle.picture.specs.Refusals.{drawing, drawn};
ghost use Rattle.calls.specs.State.{fresh_state, Valid};
ghost use Rattle.events.specs.declared.Event.TheVariants as event;
ghost use Rattle.calls.specs.Calls.{called};
ghost use Rattle.panel.specs.Handed.{state_of, memories_of, stands, handed};

use crate::{CallAnswer, Outcome, Panel};
use calls::Kept;
use controller::Control;
use events::{Event, Made, Pin, Transfer};
use picture::lent::Lent;
use refusals::Refusal;

impl Panel {
    // A panel as it is when it has just been made.
    pub fn fresh(made: Made) -> Panel
        ensures state { state_of result ≡ fresh_state made }
        ensures valid { Valid (state_of result) }
    {
        Panel {
            text: [0x20u8; 128],
            glyph: [0u8; 128],
            graphic: [0u8; 2048],
            control: Control::fresh(made),
            link: links::idle(made.parallel),
        }
    }

    // An event comes to the panel, where it stands: whoever makes many calls copies none of its memories. Refused, it is as it was.
    pub fn hear(
        &mut self,
        event: Event,
        frame: &mut [u8],
        lent: &Lent,
    ) -> Result<CallAnswer, Refusal>
        requires { Valid (state_of self.old) }
        ensures leaves { stands self.new result frame.new ≡ called (seen_by lent.now) (state_of self.old) frame.old event }
        ensures valid { Valid (state_of self.new) }
    {
        let kept = Kept {
            control: self.control,
            link: self.link,
        };
        let heard = calls::call(
            &mut self.text,
            &mut self.glyph,
            &mut self.graphic,
            kept,
            event,
            frame,
            lent,
        )?;
        self.control = heard.kept.control;
        self.link = heard.kept.link;
        Ok(CallAnswer {
            reply: heard.reply,
            count: heard.count,
        })
    }

    // An event comes to the panel. By itself, and not by `hear`: of a panel that is lent the answer would be cleared twice.
    pub fn call(mut self, event: Event, frame: &mut [u8], lent: &Lent) -> Result<Outcome, Refusal>
        requires { Valid (state_of self) }
        ensures leaves { handed self result frame.new ≡ called (seen_by lent.now) (state_of self) frame.old event }
        ensures valid { IfOk result (λ outcome. Valid (state_of outcome.panel)) }
    {
        let kept = Kept {
            control: self.control,
            link: self.link,
        };
        let answer = calls::call(
            &mut self.text,
            &mut self.glyph,
            &mut self.graphic,
            kept,
            event,
            frame,
            lent,
        )?;
        self.control = answer.kept.control;
        self.link = answer.kept.link;
        Ok(Outcome {
            panel: self,
            reply: answer.reply,
            count: answer.count,
        })
    }

    // A transfer of the parallel link.
    pub fn transfer(
        self,
        given: Transfer,
        frame: &mut [u8],
        lent: &Lent,
    ) -> Result<Outcome, Refusal>
        requires { Valid (state_of self) }
        ensures leaves { handed self result frame.new ≡ called (seen_by lent.now) (state_of self) frame.old (event.Transfer given) }
        ensures valid { IfOk result (λ outcome. Valid (state_of outcome.panel)) }
    {
        self.call(Event::Transfer(given), frame, lent)
    }

    // One bit of the serial link, with chip select high.
    pub fn bit(self, given: bool, frame: &mut [u8], lent: &Lent) -> Result<Outcome, Refusal>
        requires { Valid (state_of self) }
        ensures leaves { handed self result frame.new ≡ called (seen_by lent.now) (state_of self) frame.old (event.Bit given) }
        ensures valid { IfOk result (λ outcome. Valid (state_of outcome.panel)) }
    {
        self.call(Event::Bit(given), frame, lent)
    }

    // Chip select low on the serial link.
    pub fn select_low(self, frame: &mut [u8], lent: &Lent) -> Result<Outcome, Refusal>
        requires { Valid (state_of self) }
        ensures leaves { handed self result frame.new ≡ called (seen_by lent.now) (state_of self) frame.old event.SelectLow }
        ensures valid { IfOk result (λ outcome. Valid (state_of outcome.panel)) }
    {
        self.call(Event::SelectLow, frame, lent)
    }

    // Reset with the interface pin and the numbering that it chooses, on either link.
    pub fn reset(self, pin: Pin, frame: &mut [u8], lent: &Lent) -> Result<Outcome, Refusal>
        requires { Valid (state_of self) }
        ensures leaves { handed self result frame.new ≡ called (seen_by lent.now) (state_of self) frame.old (event.Reset pin) }
        ensures valid { IfOk result (λ outcome. Valid (state_of outcome.panel)) }
    {
        self.call(Event::Reset(pin), frame, lent)
    }

    // So many times 8 microseconds pass, on either link.
    pub fn pass(self, eights: u8, frame: &mut [u8], lent: &Lent) -> Result<Outcome, Refusal>
        requires { Valid (state_of self) }
        ensures leaves { handed self result frame.new ≡ called (seen_by lent.now) (state_of self) frame.old (event.Pass eights) }
        ensures valid { IfOk result (λ outcome. Valid (state_of outcome.panel)) }
    {
        self.call(Event::Pass(eights), frame, lent)
    }

    // The whole picture, drawn afresh into the frame.
    pub fn draw(&self, frame: &mut [u8], lent: &Lent) -> Result<(), Refusal>
        ensures { drawing (answer_number result) frame.new ≡ drawn (seen_by lent.now) (memories_of self.now) self.now.control frame.old }
    {
        drawing::draw(
            &self.text,
            &self.glyph,
            &self.graphic,
            self.control,
            frame,
            lent,
        )
    }
}
