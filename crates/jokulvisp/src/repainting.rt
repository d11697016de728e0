// jv_repaint: the rows that differ between two lists.
ghost use Rattle.std.specs.Prelude.{◌≡◌};
ghost use Rattle.engine.specs.Running.{run_in};
ghost use Rattle.jokulvisp.specs.Repaint.{repainted, repaint_due, unless_faulty, RepaintAnswer};

use crate::check::{JvAnswer, Refusal};
use crate::{check, painting};
use engine::Screen;

// A list that does not draw, named and told, the old one first. With number 0 no row is counted yet.
fn answer_runs(old: &Screen, new: &Screen) -> JvAnswer
    ensures { result ≡ unless_faulty 1 (run_in old.now) (unless_faulty 2 (run_in new.now) (repainted 0)) }
{
    let former = old.finish();
    if former.number() != 0 {
        return JvAnswer::ended(1, former);
    }
    let latter = new.finish();
    if latter.number() != 0 {
        return JvAnswer::ended(2, latter);
    }
    JvAnswer {
        number: 0,
        list: 0,
        place: 0,
        count: 0,
    }
}

#[tactic(auto, unfolding(crate::specs::Repaint::repaint_due))]
fn answer(
    old: &[u8],
    new: &[u8],
    memory: &[u8],
    width: u32,
    height: u32,
    limit: u32,
    lent: bool,
) -> JvAnswer
    ensures { result ≡ repaint_due old.now new.now memory.now width height limit lent 0 }
{
    if !(check::is_frame(width, height) && lent) {
        return JvAnswer::refused(0, Refusal::Frame);
    }
    if !check::is_list(old.len()) {
        return JvAnswer::refused(1, Refusal::List);
    }
    if !check::is_list(new.len()) {
        return JvAnswer::refused(2, Refusal::List);
    }
    if !check::is_memory(memory.len()) {
        return JvAnswer::refused(0, Refusal::Memory);
    }
    if !check::is_limit(limit) {
        return JvAnswer::refused(0, Refusal::Limit);
    }
    let old = Screen {
        list: old,
        memory,
        limit,
    };
    let new = Screen {
        list: new,
        memory,
        limit,
    };
    answer_runs(&old, &new)
}

pub fn jv_repaint(
    old: &[u8],
    new: &[u8],
    memory: &[u8],
    width: u32,
    height: u32,
    limit: u32,
    picture: &mut [u8],
    tags: &mut [u8],
    marks: &mut [u8],
) -> JvAnswer
    ensures { RepaintAnswer old.now new.now memory.now width height limit
        picture.old tags.old marks.old
        result picture.new tags.new marks.new }
{
    let lent = painting::is_lent(width, height, picture.len(), tags.len())
        & (marks.len() == height as usize);
    let told = answer(old, new, memory, width, height, limit, lent);
    if told.number != 0 {
        return told;
    }
    let old = Screen {
        list: old,
        memory,
        limit,
    };
    let new = Screen {
        list: new,
        memory,
        limit,
    };
    let rows = repaint::repaint(&old, &new, width, picture, tags, marks);
    JvAnswer {
        number: 0,
        list: 0,
        place: 0,
        count: rows,
    }
}
