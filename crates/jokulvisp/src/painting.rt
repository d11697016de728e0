// jv_paint_row and jv_paint: one row of the frame or all of them.
ghost use Rattle.std.specs.Prelude.{◌≡◌, length};
ghost use Rattle.jokulvisp.specs.Paint.{is_lent, Lends, RowsAnswer, PaintRowAnswer, PaintAnswer};

use crate::check::{JvAnswer, answer};
use engine::Screen;

// The frame's limits may be broken here, and three times the pixels past 64 bits: so they are taken off the picture's length twice.
pub fn is_lent(width: u32, rows: u32, picture: usize, tags: usize) -> bool
    ensures { result ≡ is_lent width rows picture tags }
{
    let pixels = (rows as u64) * (width as u64);
    let last = (picture as u64)
        .saturating_sub(pixels)
        .saturating_sub(pixels);
    (last == pixels) & (tags as u64 == pixels)
}

// Paints so many rows from `first` on, where nothing is refused and the list draws.
fn answer_rows(
    lent: bool,
    list: &[u8],
    memory: &[u8],
    width: u32,
    height: u32,
    first: u32,
    count: u32,
    limit: u32,
    picture: &mut [u8],
    tags: &mut [u8],
) -> JvAnswer
    requires { Lends lent width height first count (length picture.old) (length tags.old) }
    ensures { RowsAnswer lent list.now memory.now width height first count limit
        picture.old tags.old result picture.new tags.new }
{
    let told = answer(list, memory, width, height, limit, lent);
    if told.number != 0 {
        return told;
    }
    let screen = Screen {
        list,
        memory,
        limit,
    };
    paint::paint_rows(&screen, width, first, count, picture, tags);
    told
}

pub fn jv_paint_row(
    list: &[u8],
    memory: &[u8],
    width: u32,
    height: u32,
    row: u32,
    limit: u32,
    picture: &mut [u8],
    tags: &mut [u8],
) -> JvAnswer
    ensures { PaintRowAnswer list.now memory.now width height row limit
        picture.old tags.old result picture.new tags.new }
{
    let lent = (row < height) & is_lent(width, 1, picture.len(), tags.len());
    answer_rows(
        lent, list, memory, width, height, row, 1, limit, picture, tags,
    )
}

pub fn jv_paint(
    list: &[u8],
    memory: &[u8],
    width: u32,
    height: u32,
    limit: u32,
    picture: &mut [u8],
    tags: &mut [u8],
) -> JvAnswer
    ensures { PaintAnswer list.now memory.now width height limit
        picture.old tags.old result picture.new tags.new }
{
    let lent = is_lent(width, height, picture.len(), tags.len());
    answer_rows(
        lent, list, memory, width, height, 0, height, limit, picture, tags,
    )
}
