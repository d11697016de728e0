// A word read: the command that it holds, or why it holds none.
ghost use Rattle.std.specs.Prelude.{◌≡◌, ◌+◌, ◌^◌, ◌/◌, ◌≤◌, ◌<◌};
ghost use Rattle.words.specs.Fields.{int, extended};
ghost use Rattle.words.specs.Table.{row_of};
ghost use Rattle.words.specs.Words.{read_as, read_word};

use crate::fault::{WordFault, checked};
use crate::field::{Meaning, is_meant};
use crate::word::Word;

// The number that the bits n of a signed field stand for. The field holds -half .. half - 1.
fn sign(n: u32, half: u32) -> i32
    requires { (half ≤ 2 ^ 23) × (n < half + half) }
    ensures { result ≡ int (extended half n) }
{
    if n < half {
        return n as i32;
    }
    n as i32 - (half + half) as i32
}

fn read_bitmap_layout(w: u32) -> Result<Word, WordFault>
    ensures { result ≡ read_as (row_of 0x07) w }
{
    let format = (w >> 19) % 32;
    checked(
        is_meant(Meaning::Format, format),
        Word::BitmapLayout {
            format,
            linestride: (w >> 9) % 0x400,
            height: w % 512,
        },
    )
}

fn read_stencil_func(w: u32) -> Result<Word, WordFault>
    ensures { result ≡ read_as (row_of 0x0A) w }
{
    let func = (w >> 16) % 16;
    checked(
        is_meant(Meaning::Function, func),
        Word::StencilFunc {
            func,
            reference: (w >> 8) % 256,
            mask: w % 256,
        },
    )
}

fn read_blend_func(w: u32) -> Result<Word, WordFault>
    ensures { result ≡ read_as (row_of 0x0B) w }
{
    let src = (w >> 3) % 8;
    let dst = w % 8;
    checked(
        is_meant(Meaning::BlendFactor, src) & is_meant(Meaning::BlendFactor, dst),
        Word::BlendFunc { src, dst },
    )
}

fn read_stencil_op(w: u32) -> Result<Word, WordFault>
    ensures { result ≡ read_as (row_of 0x0C) w }
{
    let sfail = (w >> 3) % 8;
    let spass = w % 8;
    checked(
        is_meant(Meaning::StencilAction, sfail) & is_meant(Meaning::StencilAction, spass),
        Word::StencilOp { sfail, spass },
    )
}

fn read_scissor_size(w: u32) -> Result<Word, WordFault>
    ensures { result ≡ read_as (row_of 0x1C) w }
{
    let width = (w >> 12) % 0x1000;
    let height = w % 0x1000;
    checked(
        is_meant(Meaning::ScissorSide, width) & is_meant(Meaning::ScissorSide, height),
        Word::ScissorSize { width, height },
    )
}

fn read_begin(w: u32) -> Result<Word, WordFault>
    ensures { result ≡ read_as (row_of 0x1F) w }
{
    let prim = w % 16;
    checked(is_meant(Meaning::Primitive, prim), Word::Begin { prim })
}

fn read_vertex_format(w: u32) -> Result<Word, WordFault>
    ensures { result ≡ read_as (row_of 0x27) w }
{
    let frac = w % 8;
    checked(is_meant(Meaning::Frac, frac), Word::VertexFormat { frac })
}

// A word whose two top bits are 0: the top byte names the command.
#[tactic(auto, unfolding(crate::specs::Words::checked))]
fn read_by_byte(w: u32) -> Result<Word, WordFault>
    requires { w < 2 ^ 30 }
    ensures { result ≡ read_as (row_of (w / 2 ^ 24)) w }
{
    match w >> 24 {
        0x00 => Ok(Word::Display),
        0x01 => Ok(Word::BitmapSource { addr: w % 0x400000 }),
        0x02 => Ok(Word::ClearColorRgb {
            red: (w >> 16) % 256,
            green: (w >> 8) % 256,
            blue: w % 256,
        }),
        0x03 => Ok(Word::Tag { s: w % 256 }),
        0x04 => Ok(Word::ColorRgb {
            red: (w >> 16) % 256,
            green: (w >> 8) % 256,
            blue: w % 256,
        }),
        0x05 => Ok(Word::BitmapHandle { handle: w % 32 }),
        0x06 => Ok(Word::Cell { cell: w % 128 }),
        0x07 => read_bitmap_layout(w),
        0x08 => Ok(Word::BitmapSize {
            filter: (w >> 20) % 2,
            wrapx: (w >> 19) % 2,
            wrapy: (w >> 18) % 2,
            width: (w >> 9) % 512,
            height: w % 512,
        }),
        0x09 => Ok(Word::AlphaFunc {
            func: (w >> 8) % 8,
            reference: w % 256,
        }),
        0x0A => read_stencil_func(w),
        0x0B => read_blend_func(w),
        0x0C => read_stencil_op(w),
        0x0D => Ok(Word::PointSize { size: w % 0x2000 }),
        0x0E => Ok(Word::LineWidth { width: w % 0x1000 }),
        0x0F => Ok(Word::ClearColorA { alpha: w % 256 }),
        0x10 => Ok(Word::ColorA { alpha: w % 256 }),
        0x11 => Ok(Word::ClearStencil { s: w % 256 }),
        0x12 => Ok(Word::ClearTag { t: w % 256 }),
        0x13 => Ok(Word::StencilMask { mask: w % 256 }),
        0x14 => Ok(Word::TagMask { mask: w % 2 }),
        0x15 => Ok(Word::BitmapTransformA {
            a: sign(w % 0x20000, 0x10000),
        }),
        0x16 => Ok(Word::BitmapTransformB {
            b: sign(w % 0x20000, 0x10000),
        }),
        0x17 => Ok(Word::BitmapTransformC {
            c: sign(w % 0x1000000, 0x800000),
        }),
        0x18 => Ok(Word::BitmapTransformD {
            d: sign(w % 0x20000, 0x10000),
        }),
        0x19 => Ok(Word::BitmapTransformE {
            e: sign(w % 0x20000, 0x10000),
        }),
        0x1A => Ok(Word::BitmapTransformF {
            f: sign(w % 0x1000000, 0x800000),
        }),
        0x1B => Ok(Word::ScissorXy {
            x: (w >> 11) % 0x800,
            y: w % 0x800,
        }),
        0x1C => read_scissor_size(w),
        0x1D => Ok(Word::Call { dest: w % 0x10000 }),
        0x1E => Ok(Word::Jump { dest: w % 0x10000 }),
        0x1F => read_begin(w),
        0x20 => Ok(Word::ColorMask {
            r: (w >> 3) % 2,
            g: (w >> 2) % 2,
            b: (w >> 1) % 2,
            a: w % 2,
        }),
        0x21 => Ok(Word::End),
        0x22 => Ok(Word::SaveContext),
        0x23 => Ok(Word::RestoreContext),
        0x24 => Ok(Word::Return),
        0x25 => Ok(Word::Macro { m: w % 2 }),
        0x26 => Ok(Word::Clear {
            c: (w >> 2) % 2,
            s: (w >> 1) % 2,
            t: w % 2,
        }),
        0x27 => read_vertex_format(w),
        0x28 => Ok(Word::BitmapLayoutH {
            linestride: (w >> 2) % 4,
            height: w % 4,
        }),
        0x29 => Ok(Word::BitmapSizeH {
            width: (w >> 2) % 4,
            height: w % 4,
        }),
        0x2A => Ok(Word::PaletteSource { addr: w % 0x400000 }),
        0x2B => Ok(Word::VertexTranslateX {
            x: sign(w % 0x20000, 0x10000),
        }),
        0x2C => Ok(Word::VertexTranslateY {
            y: sign(w % 0x20000, 0x10000),
        }),
        0x2D => Ok(Word::Nop),
        _ => Err(WordFault::NoCommand),
    }
}

#[tactic(auto, unfolding(crate::specs::Words::read_word, crate::specs::Words::checked))]
pub fn read_word(w: u32) -> Result<Word, WordFault>
    ensures { result ≡ read_word w }
{
    match w >> 30 {
        0 => read_by_byte(w),
        1 => Ok(Word::Vertex2f {
            x: sign((w >> 15) % 0x8000, 0x4000),
            y: sign(w % 0x8000, 0x4000),
        }),
        2 => Ok(Word::Vertex2ii {
            x: (w >> 21) % 512,
            y: (w >> 12) % 512,
            handle: (w >> 7) % 32,
            cell: w % 128,
        }),
        _ => Err(WordFault::NoCommand),
    }
}
