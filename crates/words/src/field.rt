// The fields of the commands: how wide each is, and which of its numbers have a meaning.
ghost use Rattle.std.specs.Prelude.{◌≡◌, ◌%◌, ◌^◌, ◌<◌, ◌≤◌};
ghost use Rattle.words.specs.Fields.{meant, means, width, holds_signed, holds};
ghost use Rattle.words.specs.Table.{row_of};
ghost use Rattle.words.specs.Layout.{layout_of, filled};

// What the numbers of a field name, where not every one has a meaning.
#[derive(Clone, Copy)]
pub enum Meaning {
    Function,
    StencilAction,
    BlendFactor,
    Primitive,
    Format,
    Frac,
    ScissorSide,
}

// A field so many bits wide: any number, a number with a meaning, or a number in two's complement.
#[derive(Clone, Copy)]
pub enum Field {
    Bits(u32),
    Only(u32, Meaning),
    Signed(u32),
}

// The fields of a command that has these from the high bits down. Those that it does not have come last and are of no
// bits.
fn laid<const N: usize>(own: [Field; N]) -> [Field; 5]
    requires { N ≤ 5 }
    ensures { result ≡ filled own.entry }
{
    let mut fields = [Field::Bits(0); 5];
    fields[..N].copy_from_slice(&own);
    fields
}

pub fn fields_of(command: u32) -> Option<[Field; 5]>
    ensures { result ≡ layout_of (row_of command) }
{
    Some(match command {
        0x00 => laid([]),
        0x01 => laid([Field::Bits(22)]),
        0x02 => laid([Field::Bits(8), Field::Bits(8), Field::Bits(8)]),
        0x03 => laid([Field::Bits(8)]),
        0x04 => laid([Field::Bits(8), Field::Bits(8), Field::Bits(8)]),
        0x05 => laid([Field::Bits(5)]),
        0x06 => laid([Field::Bits(7)]),
        0x07 => laid([
            Field::Only(5, Meaning::Format),
            Field::Bits(10),
            Field::Bits(9),
        ]),
        0x08 => laid([
            Field::Bits(1),
            Field::Bits(1),
            Field::Bits(1),
            Field::Bits(9),
            Field::Bits(9),
        ]),
        0x09 => laid([Field::Only(3, Meaning::Function), Field::Bits(8)]),
        0x0A => laid([
            Field::Only(4, Meaning::Function),
            Field::Bits(8),
            Field::Bits(8),
        ]),
        0x0B => laid([
            Field::Only(3, Meaning::BlendFactor),
            Field::Only(3, Meaning::BlendFactor),
        ]),
        0x0C => laid([
            Field::Only(3, Meaning::StencilAction),
            Field::Only(3, Meaning::StencilAction),
        ]),
        0x0D => laid([Field::Bits(13)]),
        0x0E => laid([Field::Bits(12)]),
        0x0F => laid([Field::Bits(8)]),
        0x10 => laid([Field::Bits(8)]),
        0x11 => laid([Field::Bits(8)]),
        0x12 => laid([Field::Bits(8)]),
        0x13 => laid([Field::Bits(8)]),
        0x14 => laid([Field::Bits(1)]),
        0x15 => laid([Field::Signed(17)]),
        0x16 => laid([Field::Signed(17)]),
        0x17 => laid([Field::Signed(24)]),
        0x18 => laid([Field::Signed(17)]),
        0x19 => laid([Field::Signed(17)]),
        0x1A => laid([Field::Signed(24)]),
        0x1B => laid([Field::Bits(11), Field::Bits(11)]),
        0x1C => laid([
            Field::Only(12, Meaning::ScissorSide),
            Field::Only(12, Meaning::ScissorSide),
        ]),
        0x1D => laid([Field::Bits(16)]),
        0x1E => laid([Field::Bits(16)]),
        0x1F => laid([Field::Only(4, Meaning::Primitive)]),
        0x20 => laid([
            Field::Bits(1),
            Field::Bits(1),
            Field::Bits(1),
            Field::Bits(1),
        ]),
        0x21 => laid([]),
        0x22 => laid([]),
        0x23 => laid([]),
        0x24 => laid([]),
        0x25 => laid([Field::Bits(1)]),
        0x26 => laid([Field::Bits(1), Field::Bits(1), Field::Bits(1)]),
        0x27 => laid([Field::Only(3, Meaning::Frac)]),
        0x28 => laid([Field::Bits(2), Field::Bits(2)]),
        0x29 => laid([Field::Bits(2), Field::Bits(2)]),
        0x2A => laid([Field::Bits(22)]),
        0x2B => laid([Field::Signed(17)]),
        0x2C => laid([Field::Signed(17)]),
        0x2D => laid([]),
        0x40 => laid([Field::Signed(15), Field::Signed(15)]),
        0x80 => laid([
            Field::Bits(9),
            Field::Bits(9),
            Field::Bits(5),
            Field::Bits(7),
        ]),
        _ => return None,
    })
}

fn is_primitive(n: u32) -> bool
    ensures { result ≡ meant Meaning.Primitive n }
{
    (1 <= n) & (n <= 9)
}

fn is_format(n: u32) -> bool
    ensures { result ≡ meant Meaning.Format n }
{
    (n <= 7) | (9 <= n) & (n <= 11) | (14 <= n) & (n <= 17)
}

// Whether the number has a meaning there: row 12 of document 01's table.
pub fn is_meant(meaning: Meaning, n: u32) -> bool
    ensures { result ≡ meant meaning n }
{
    match meaning {
        Meaning::Function => n <= 7,
        Meaning::StencilAction => n <= 5,
        Meaning::BlendFactor => n <= 5,
        Meaning::Primitive => is_primitive(n),
        Meaning::Format => is_format(n),
        Meaning::Frac => n <= 4,
        Meaning::ScissorSide => n <= 2048,
    }
}

pub fn is_meaningful(field: Field, n: u32) -> bool
    ensures { result ≡ means field n }
{
    match field {
        Field::Bits(_) => true,
        Field::Only(_, meaning) => is_meant(meaning, n),
        Field::Signed(_) => true,
    }
}

pub fn power(k: u32) -> u32
    requires { k < 32 }
    ensures { result ≡ 2 ^ k }
{
    1 << k
}

// The remainder by 2^k, without a division.
pub fn low_bits(n: u32, k: u32) -> u32
    requires { k < 32 }
    ensures { result ≡ n % 2 ^ k }
{
    n & (power(k) - 1)
}

pub fn width_of(field: Field) -> u32
    ensures { result ≡ width field }
{
    match field {
        Field::Bits(k) => k,
        Field::Only(k, _) => k,
        Field::Signed(k) => k,
    }
}

#[tactic(auto, unfolding(crate::specs::Fields::holds_signed))]
fn is_held_signed(half: u32, n: u32) -> bool
    ensures { result ≡ holds_signed half n }
{
    (n < half) | (0xFFFFFFFF - half < n)
}

// Whether the field's bits hold the number, and it has a meaning there.
#[tactic(auto, unfolding(crate::specs::Fields::holds))]
pub fn is_held(field: Field, n: u32) -> bool
    requires { width field < 32 }
    ensures { result ≡ holds field n }
{
    match field {
        Field::Bits(k) => n < power(k),
        Field::Only(k, meaning) => is_meant(meaning, n) & (n < power(k)),
        Field::Signed(k) => is_held_signed(power(k) / 2, n),
    }
}
