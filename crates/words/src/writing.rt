// A command written: the word that holds it, or why no word does.
ghost use Rattle.std.specs.Prelude.{◌≡◌, ◌≤◌};
ghost use Rattle.words.specs.Fields.{fit, join, total};
ghost use Rattle.words.specs.Table.{numbers};
ghost use Rattle.words.specs.Layout.{Laid, Room};
ghost use Rattle.words.specs.Words.{encoded, write_spelling};

use crate::fault::{WordFault, checked};
use crate::field::{Field, fields_of, is_held, low_bits, power, width_of};
use crate::spelling::Spelling;

// The lowest bits of a word, `used` of them.
#[derive(Clone, Copy)]
pub struct Packed {
    pub bits: u32,
    pub used: u32,
}

fn pack(low: Packed, field: Field, n: u32) -> Packed
    requires { Room low field }
    ensures { Laid low field n result }
{
    let width = width_of(field);
    let own = low_bits(n, width);
    let lifted = own * power(low.used);
    let bits = lifted + low.bits;
    let used = width + low.used;
    Packed { bits, used }
}

// The numbers laid into the fields from the high bits down.
fn pack_all(fields: [Field; 5], numbers: [u32; 5]) -> u32
    requires { total fields ≤ 30 }
    ensures { result ≡ join fields numbers }
{
    let none = Packed { bits: 0, used: 0 };
    let one = pack(none, fields[4], numbers[4]);
    let two = pack(one, fields[3], numbers[3]);
    let three = pack(two, fields[2], numbers[2]);
    let four = pack(three, fields[1], numbers[1]);
    let five = pack(four, fields[0], numbers[0]);
    five.bits
}

fn is_fit(fields: [Field; 5], numbers: [u32; 5]) -> bool
    requires { total fields ≤ 30 }
    ensures { result ≡ fit fields numbers }
{
    is_held(fields[0], numbers[0])
        & (is_held(fields[1], numbers[1])
            & (is_held(fields[2], numbers[2])
                & (is_held(fields[3], numbers[3]) & is_held(fields[4], numbers[4]))))
}

pub fn write_spelling(s: Spelling) -> Result<u32, WordFault>
    ensures { result ≡ write_spelling s }
{
    let fields = fields_of(s.command).ok_or(WordFault::NoCommand)?;
    checked(
        is_fit(fields, s.numbers),
        s.command * 0x1000000 + pack_all(fields, s.numbers),
    )
}
