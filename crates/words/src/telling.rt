// A word as plain numbers, cut apart by the layouts that the writer packs by. It does without `read_word`, which is compiled into
// its caller only as long as it has a single one: the engine, which runs it for every word.
ghost use Rattle.std.specs.Prelude.{◌≡◌, ◌+◌, ◌^◌, ◌≤◌, ◌<◌};
ghost use Rattle.words.specs.Fields.{all_mean, extended, value, values};
ghost use Rattle.words.specs.Layout.{Apart, Cuttable, Digit, Inside};
ghost use Rattle.words.specs.Table.{numbers, spelling};
ghost use Rattle.words.specs.Words.{command, decoded, spell_word};

use crate::fault::{WordFault, checked};
use crate::field::{Field, fields_of, is_meaningful, low_bits, power, width_of};
use crate::spelling::Spelling;

// A field's number; the field's bits and those below it are `used` bits.
#[derive(Clone, Copy)]
pub struct Piece {
    pub number: u32,
    pub used: u32,
}

fn command_of(w: u32) -> u32
    ensures { result ≡ command w }
{
    match w >> 30 {
        0 => w >> 24,
        1 => 0x40,
        2 => 0x80,
        _ => 0xC0,
    }
}

// The bits n of a signed field as 32 bits. The field holds -half .. half - 1.
fn extend(half: u32, n: u32) -> u32
    requires { (half ≤ 2 ^ 30) × (n < half + half) }
    ensures { result ≡ extended half n }
{
    if n < half {
        return n;
    }
    0xFFFFFFFF - (half + half - 1 - n)
}

fn value_of(field: Field, n: u32) -> u32
    requires { Digit field n }
    ensures { result ≡ value field n }
{
    match field {
        Field::Bits(_) => n,
        Field::Only(_, _) => n,
        Field::Signed(k) => extend(power(k) / 2, n),
    }
}

// The number of the field that has `low` bits below it.
fn cut(w: u32, field: Field, low: u32) -> Piece
    requires { Inside field low }
    ensures { Apart w field low result }
{
    let width = width_of(field);
    let bits = low_bits(w >> low, width);
    let number = value_of(field, bits);
    let used = width + low;
    Piece { number, used }
}

// The numbers of a command's fields.
fn cut_all(w: u32, fields: [Field; 5]) -> [u32; 5]
    requires { Cuttable fields }
    ensures { result ≡ values fields w }
{
    let fifth = cut(w, fields[4], 0);
    let fourth = cut(w, fields[3], fifth.used);
    let third = cut(w, fields[2], fourth.used);
    let second = cut(w, fields[1], third.used);
    let first = cut(w, fields[0], second.used);
    [
        first.number,
        second.number,
        third.number,
        fourth.number,
        fifth.number,
    ]
}

fn are_meaningful(fields: [Field; 5], numbers: [u32; 5]) -> bool
    ensures { result ≡ all_mean fields numbers }
{
    is_meaningful(fields[0], numbers[0])
        & (is_meaningful(fields[1], numbers[1])
            & (is_meaningful(fields[2], numbers[2])
                & (is_meaningful(fields[3], numbers[3]) & is_meaningful(fields[4], numbers[4]))))
}

pub fn spell_bits(w: u32) -> Result<Spelling, WordFault>
    ensures { result ≡ spell_word w }
{
    let command = command_of(w);
    let fields = fields_of(command).ok_or(WordFault::NoCommand)?;
    let numbers = cut_all(w, fields);
    checked(
        are_meaningful(fields, numbers),
        Spelling { command, numbers },
    )
}
