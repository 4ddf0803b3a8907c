// What a call is lent to see with: the refusals that it has for that, and the scene that it makes of it.
ghost use Rattle.std.specs.Prelude.{◌≡◌, ◌≤◌, OnOk, length};
ghost use Rattle.refusals.specs.Numbers.{answer_number};
ghost use Rattle.controller.specs.Memories.{memories};
ghost use Rattle.picture.specs.Picture.{look_of, fonts_in, memories_in};
ghost use Rattle.picture.specs.Lent.{seen_by};
ghost use Rattle.picture.specs.Refusals.{refusal_of};

use crate::Scene;
use crate::looks::look;
use controller::Control;
use glyph::Glyphs;
use refusals::Refusal;

// The fonts, of any length, and the blink phase.
#[derive(Clone, Copy)]
pub struct Lent<'a> {
    pub half: &'a [u8],
    pub full: &'a [u8],
    pub phase: bool,
}

impl<'a> Lent<'a> {
    // The first refusal that the lengths of a frame and of the fonts give.
    #[tactic(auto, unfolding(crate::specs::Refusals::refusal_of))]
    pub fn check_lengths(&self, frame: usize) -> Result<(), Refusal>
        ensures number { answer_number result ≡ refusal_of frame (length self.now.half.now) (length self.now.full.now) }
        ensures fits { OnOk result ((frame ≡ 1024) × (length self.now.half.now ≡ 2048)) }
    {
        if frame != 1024 {
            return Err(Refusal::Frame);
        }
        if self.half.len() != 2048 {
            return Err(Refusal::HalfFont);
        }
        let full = self.full.len();
        if full % 32 != 0 || full > 281600 {
            return Err(Refusal::FullFont);
        }
        Ok(())
    }

    // The scene of memories with these fonts, where the half font has its length.
    pub fn scene(
        &self,
        text: &'a [u8; 128],
        glyph: &'a [u8; 128],
        graphic: &'a [u8; 2048],
        control: Control,
    ) -> Scene<'a>
        requires { length self.now.half.now ≡ 2048 }
        ensures memories { memories_in result ≡ memories text.entry.now glyph.entry.now graphic.entry.now }
        ensures fonts { fonts_in result ≡ (seen_by self.now).fonts }
        ensures look { result.look ≡ look_of self.now.phase control }
    {
        let half = self.half.as_array::<2048>().unwrap();
        let glyphs = Glyphs {
            memory: glyph,
            half,
            full: self.full,
        };
        Scene {
            text,
            graphic,
            glyphs,
            look: look(control, self.phase),
        }
    }
}
