// The calls for C, as include/jokulvisp.h declares them. Each answers for every input.
#![tactic(auto)]

ghost use Rattle.jokulvisp.specs.Words.{ReadAnswer, WriteAnswer, word_told};
ghost use Rattle.std.specs.Prelude.{◌≡◌, [], ◌∷◌};

mod check;
mod painting;
mod repainting;
mod ringing;

pub use check::{JvAnswer, jv_check};
pub use painting::{jv_paint, jv_paint_row};
pub use repainting::jv_repaint;
pub use ringing::{JvRing, jv_ring_reset, jv_ring_run, jv_ring_write};
use words::Spelling;

#[repr(C)]
#[derive(Clone, Copy)]
pub struct JvWord {
    pub number: u32,
    pub command: u32,
    pub a: u32,
    pub b: u32,
    pub c: u32,
    pub d: u32,
    pub e: u32,
}

#[repr(C)]
#[derive(Clone, Copy)]
pub struct JvBits {
    pub number: u32,
    pub bits: u32,
}

fn tell(number: u32, s: Spelling) -> JvWord
    ensures { result ≡ word_told number s }
{
    JvWord {
        number,
        command: s.command,
        a: s.numbers[0],
        b: s.numbers[1],
        c: s.numbers[2],
        d: s.numbers[3],
        e: s.numbers[4],
    }
}

#[tactic(auto, unfolding(crate::specs::Words::ReadAnswer))]
pub fn jv_read_word(bits: u32) -> JvWord
    ensures { ReadAnswer bits result }
{
    let nothing = Spelling {
        command: 0,
        numbers: [0; 5],
    };
    match words::spell_bits(bits) {
        Ok(s) => tell(0, s),
        Err(fault) => tell(fault.number(), nothing),
    }
}

#[tactic(auto, unfolding(crate::specs::Words::WriteAnswer))]
pub fn jv_write_word(command: u32, a: u32, b: u32, c: u32, d: u32, e: u32) -> JvBits
    ensures { WriteAnswer (record { command = command; numbers = a ∷ b ∷ c ∷ d ∷ e ∷ [] }) result }
{
    let numbers = [a, b, c, d, e];
    match words::write_spelling(Spelling { command, numbers }) {
        Ok(bits) => JvBits { number: 0, bits },
        Err(fault) => JvBits {
            number: fault.number(),
            bits: 0,
        },
    }
}
