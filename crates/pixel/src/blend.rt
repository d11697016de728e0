// The colour product and the blend.
ghost use Rattle.std.specs.Prelude.{◌≡◌, ◌/◌, ◌<◌};
ghost use Rattle.action.specs.Flags.{is_set};
ghost use Rattle.pixel.specs.Blend.{product, white, tinted, source, weight, blended};
ghost use Rattle.pixel.specs.Bytes.{masked};

use crate::bytes::byte;
use action::{Colour, Factor};

// A colour in bytes: what texel and current colour come to.
#[derive(Clone, Copy)]
pub struct Shade {
    pub red: u8,
    pub green: u8,
    pub blue: u8,
    pub alpha: u8,
}

pub fn white() -> Colour
    ensures { result ≡ white }
{
    Colour {
        red: 255,
        green: 255,
        blue: 255,
        alpha: 255,
    }
}

// 'done by shifts and additions': document 02, wish 4, for a core that has no divide instruction.
fn by_255(x: u32) -> u32
    requires { x < 65535 }
    ensures { result ≡ x / 255 }
{
    (x + 1 + (x >> 8)) >> 8
}

fn product(a: u8, b: u8) -> u8
    ensures { result ≡ product a b }
{
    let a = a as u32;
    let b = b as u32;
    by_255(a * b + 127) as u8
}

// A channel of the texel times that of the current colour.
pub fn tint(texel: u32, colour: u32) -> u8
    ensures { result ≡ tinted texel colour }
{
    product(byte(texel), byte(colour))
}

pub fn multiply(texel: Colour, colour: Colour) -> Shade
    ensures { result ≡ source texel colour }
{
    Shade {
        red: tint(texel.red, colour.red),
        green: tint(texel.green, colour.green),
        blue: tint(texel.blue, colour.blue),
        alpha: tint(texel.alpha, colour.alpha),
    }
}

// White times a colour is the colour. A compiler sees that of a quotient by 255, but not through the shifts.
pub fn untextured(colour: Colour) -> Shade
    ensures { result ≡ source white colour }
{
    Shade {
        red: byte(colour.red),
        green: byte(colour.green),
        blue: byte(colour.blue),
        alpha: byte(colour.alpha),
    }
}

pub fn weigh(factor: Factor, source: u8, stored: u8) -> u8
    ensures { result ≡ weight factor source stored }
{
    match factor {
        Factor::Zero => 0,
        Factor::One => 255,
        Factor::SrcAlpha => source,
        Factor::DstAlpha => stored,
        Factor::OneMinusSrcAlpha => 255 - source,
        Factor::OneMinusDstAlpha => 255 - stored,
    }
}

// 'at most 255', which it is from 255 * 255 on; `by_255` is right only below 65,535.
fn mix(s: u8, f: u8, d: u8, g: u8) -> u8
    ensures { result ≡ blended s f d g }
{
    let s = s as u32;
    let f = f as u32;
    let d = d as u32;
    let g = g as u32;
    let sum = s * f + d * g + 127;
    if sum < 65025 { by_255(sum) as u8 } else { 255 }
}

// A channel, blended where its mask is set.
pub fn channel(mask: u32, s: u8, f: u8, d: u8, g: u8) -> u8
    ensures { result ≡ masked (is_set mask) (blended s f d g) d }
{
    if mask != 0 { mix(s, f, d, g) } else { d }
}
