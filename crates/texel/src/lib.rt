// One texel of a cell in RAM_G: formats, widening, and what lies past stride or layout height. Where it is drawn is not known here.
#![tactic(auto)]

ghost use Rattle.std.specs.Prelude.{◌≡◌, ◌+◌, ◌*◌, ◌/◌, ◌<◌};
ghost use Rattle.texel.specs.Texel.{pixel_bytes, channel, byte_at, rgb565, argb1555, l8, none, texel_at};
ghost use Rattle.texel.specs.Widen.{OfBits, widened};

use action::{Bitmap, Colour, Format};

fn none() -> Colour
    ensures { result ≡ none }
{
    Colour {
        red: 0,
        green: 0,
        blue: 0,
        alpha: 0,
    }
}

// The byte here, or 0 past the memory's end.
fn byte(memory: &[u8], at: usize) -> u8
    ensures { result ≡ byte_at memory.now at }
{
    if at < memory.len() {
        return memory[at];
    }
    0
}

fn pair(low: u8, high: u8) -> u32
    ensures { result ≡ low + 256 * high }
{
    low as u32 + 256 * (high as u32)
}

fn l8(n: u8) -> Colour
    ensures { result ≡ l8 n }
{
    Colour {
        red: 255,
        green: 255,
        blue: 255,
        alpha: n as u32,
    }
}

// A number of so many bits, widened to eight: at the top of the byte it stands once, then twice, four and eight times, as far as there is room.
fn widen(width: u32, v: u32) -> u32
    requires { OfBits width v }
    ensures { result ≡ widened width v }
{
    let once = v << (8 - width);
    let twice = once + (once >> width);
    let four_times = twice + (twice >> (2 * width));
    four_times + (four_times >> (4 * width))
}

// The field of so many bits from bit `low` on, as a channel.
fn channel(n: u32, low: u32, width: u32) -> u32
    requires { (low < 32) × ((0 < width) × (width < 8)) }
    ensures { result ≡ channel n low width }
{
    widen(width, (n >> low) & ((1 << width) - 1))
}

fn rgb565(n: u32) -> Colour
    ensures { result ≡ rgb565 n }
{
    Colour {
        red: channel(n, 11, 5),
        green: channel(n, 5, 6),
        blue: channel(n, 0, 5),
        alpha: 255,
    }
}

fn argb1555(n: u32) -> Colour
    ensures { result ≡ argb1555 n }
{
    Colour {
        red: channel(n, 10, 5),
        green: channel(n, 5, 5),
        blue: channel(n, 0, 5),
        alpha: channel(n, 15, 1),
    }
}

// How many bytes a pixel has.
fn bytes(format: Format) -> u64
    ensures { result ≡ pixel_bytes format }
{
    match format {
        Format::Argb1555 => 2,
        Format::L8 => 1,
        Format::Rgb565 => 2,
    }
}

// How many pixels a line of the layout has. Each division is by a constant.
fn columns(format: Format, stride: u64) -> u64
    ensures { result ≡ stride / pixel_bytes format }
{
    match format {
        Format::Argb1555 => stride / 2,
        Format::L8 => stride,
        Format::Rgb565 => stride / 2,
    }
}

// The texel of a cell: column and line counted from the drawn bitmap's top left.
pub fn texel(bitmap: Bitmap, column: u64, line: u64, memory: &[u8]) -> Colour
    ensures { result ≡ texel_at bitmap column line memory.now }
{
    let format = bitmap.format;
    let start = bitmap.start as u64;
    let stride = bitmap.stride as u64;
    let height = bitmap.height as u64;
    if height <= line {
        return none();
    }
    if columns(format, stride) <= column {
        return none();
    }
    let at = (start + (line * stride + column * bytes(format))) as usize;
    match format {
        Format::Argb1555 => argb1555(pair(byte(memory, at), byte(memory, at + 1))),
        Format::L8 => l8(byte(memory, at)),
        Format::Rgb565 => rgb565(pair(byte(memory, at), byte(memory, at + 1))),
    }
}
