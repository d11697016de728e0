// The calls for C, as include/jokulvisp.h declares them: each is the function of `jokulvisp` that has its name, and
// promises what that one does.
#![tactic(auto)]

ghost use Rattle.std.specs.Prelude.{length, [], ◌∷◌};
ghost use Rattle.jokulvisp.specs.Check.{CheckAnswer};
ghost use Rattle.jokulvisp.specs.Paint.{PaintAnswer, PaintRowAnswer};
ghost use Rattle.jokulvisp.specs.Repaint.{RepaintAnswer};
ghost use Rattle.jokulvisp.specs.Ring.{RingResetAnswer, RingRunAnswer, RingWriteAnswer};
ghost use Rattle.jokulvisp.specs.Words.{ReadAnswer, WriteAnswer};

use jokulvisp::{JvAnswer, JvBits, JvRing, JvWord};

#[unsafe(no_mangle)]
pub extern "C" fn jv_read_word(bits: u32) -> JvWord
    ensures { ReadAnswer bits result }
{
    jokulvisp::jv_read_word(bits)
}

#[unsafe(no_mangle)]
pub extern "C" fn jv_write_word(command: u32, a: u32, b: u32, c: u32, d: u32, e: u32) -> JvBits
    ensures { WriteAnswer (record { command = command; numbers = a ∷ b ∷ c ∷ d ∷ e ∷ [] }) result }
{
    jokulvisp::jv_write_word(command, a, b, c, d, e)
}

#[unsafe(no_mangle)]
pub extern "C" fn jv_check(
    list: &[u8],
    memory: &[u8],
    width: u32,
    height: u32,
    limit: u32,
) -> JvAnswer
    ensures { CheckAnswer list.now (length memory.now) width height limit result }
{
    jokulvisp::jv_check(list, memory, width, height, limit)
}

#[unsafe(no_mangle)]
pub extern "C" fn jv_paint_row(
    list: &[u8],
    memory: &[u8],
    width: u32,
    height: u32,
    row: u32,
    limit: u32,
    picture: &mut [u8],
    tags: &mut [u8],
) -> JvAnswer
    ensures { PaintRowAnswer list.now memory.now width height row limit
        picture.old tags.old result picture.new tags.new }
{
    jokulvisp::jv_paint_row(list, memory, width, height, row, limit, picture, tags)
}

#[unsafe(no_mangle)]
pub extern "C" fn jv_paint(
    list: &[u8],
    memory: &[u8],
    width: u32,
    height: u32,
    limit: u32,
    picture: &mut [u8],
    tags: &mut [u8],
) -> JvAnswer
    ensures { PaintAnswer list.now memory.now width height limit
        picture.old tags.old result picture.new tags.new }
{
    jokulvisp::jv_paint(list, memory, width, height, limit, picture, tags)
}

#[unsafe(no_mangle)]
pub extern "C" fn jv_repaint(
    old: &[u8],
    new: &[u8],
    memory: &[u8],
    width: u32,
    height: u32,
    limit: u32,
    picture: &mut [u8],
    tags: &mut [u8],
    marks: &mut [u8],
) -> JvAnswer
    ensures { RepaintAnswer old.now new.now memory.now width height limit
        picture.old tags.old marks.old
        result picture.new tags.new marks.new }
{
    jokulvisp::jv_repaint(old, new, memory, width, height, limit, picture, tags, marks)
}

#[unsafe(no_mangle)]
pub extern "C" fn jv_ring_run(
    ring: &[u8],
    list: &mut [u8],
    shown: &mut [u8],
    memory: &mut [u8],
    read: u32,
    write: u32,
    offset: u32,
    fault: u32,
) -> JvRing
    ensures { RingRunAnswer ring.now list.old shown.old memory.old
        (record { read = read; write = write; offset = offset; fault = fault }) result
        list.new shown.new memory.new }
{
    jokulvisp::jv_ring_run(ring, list, shown, memory, read, write, offset, fault)
}

#[unsafe(no_mangle)]
pub extern "C" fn jv_ring_write(
    ring: &mut [u8],
    words: &[u8],
    read: u32,
    write: u32,
    offset: u32,
    fault: u32,
) -> JvRing
    ensures { RingWriteAnswer ring.old words.now
        (record { read = read; write = write; offset = offset; fault = fault }) result
        ring.new }
{
    jokulvisp::jv_ring_write(ring, words, read, write, offset, fault)
}

#[unsafe(no_mangle)]
pub extern "C" fn jv_ring_reset() -> JvRing
    ensures { RingResetAnswer result }
{
    jokulvisp::jv_ring_reset()
}
