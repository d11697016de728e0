// Repaint: which rows an edit of a list reaches, and their repair.
//
// Both lists are run side by side, from action to action, and no action is kept. A row stands beside as long as the actions
// passed so far reach it alike in both lists. Where the two come to different actions, a row that both reach differs, and
// it is marked. One of them is then passed; a row that it reaches alone cannot be told in this walk and is left for
// a later one. What still stands beside when both lists have ended is alike. Each walk settles the row that decides which
// list goes on, so there are no more walks than rows; most often a changed word takes one, and an action put in two.
#![tactic(auto)]

ghost use Rattle.std.specs.Prelude.{◌≡◌, ◌+◌, ◌<◌, ◌≤◌, ◌*◌, length};
ghost use Rattle.engine.specs.Running.{actions_in};
ghost use Rattle.paint.specs.Picture.{patched, row_colours, row_tags};
ghost use Rattle.paint.specs.Runs.{HoldRows};
ghost use Rattle.units.specs.Units.{tallest, widest};
ghost use Rattle.repaint.specs.Repaint.{Marks, marked};
ghost use Rattle.repaint.specs.Rows.{Begins, Seeks, Walks};
ghost use Rattle.repaint.specs.Sides.{ahead, passed_by};

mod compare;

use action::Action;
use compare::{Ahead, BESIDE, LATER};
use engine::{Run, Screen};

// One of the two lists in a walk: the action that its run came to, or none at its end.
#[derive(Drop)]
struct Side<'a> {
    run: Run<'a>,
    here: Option<Action>,
}

impl<'a> Side<'a> {
    fn start(screen: &Screen<'a>) -> Side<'a>
        ensures { ahead result ≡ actions_in screen.now }
    {
        let mut run = screen.run();
        let here = run.next();
        Side { run, here }
    }

    fn go_on(&mut self)
        ensures { ahead self.new ≡ passed_by self.old }
    {
        self.here = self.run.next();
    }
}

// The first row from y on that stands so, or the number of rows.
fn seek(marks: &[u8], y: u32, stand: u8) -> u32
    requires { (y ≤ length marks.now) × (length marks.now ≤ tallest) }
    ensures { Seeks marks.now y stand result }
{
    for row in y..marks.len() as u32 {
        if marks[row as usize] == stand {
            return row;
        }
    }
    marks.len() as u32
}

// Goes once through both lists. Each row that stands beside is settled or left for later; row y is the first of them, and
// decides which list goes on until it is settled, then the next that still stands beside.
fn walk(old: &Screen, new: &Screen, width: u32, y: u32, marks: &mut [u8])
    requires marks_len_bound { ((length marks.old ≤ tallest) × (width ≤ widest)) × Begins (actions_in old.now) (actions_in new.now) width y marks.old }
    ensures { Walks (actions_in old.now) (actions_in new.now) width y marks.old marks.new }
{
    let mut a = Side::start(old);
    let mut b = Side::start(new);
    let height = marks.len() as u32;
    let mut row = y;
    while row < height {
        // A list's length less its place; the other's place, added to both, leaves no number below 0.
        let ahead = Ahead {
            old: old.list.len() as u64 + b.run.engine.now.at as u64,
            new: new.list.len() as u64 + a.run.engine.now.at as u64,
        };
        let pace = compare::compare(a.here, b.here, ahead, width, row, marks);
        if pace.old {
            a.go_on();
        }
        if pace.new {
            b.go_on();
        }
        row = seek(marks, row, BESIDE);
    }
}

// Marks each row, 1 if it differs and 0 if not. Never inlined: what a walk needs of the stack is given back before rows are
// painted.
#[inline(never)]
fn mark(old: &Screen, new: &Screen, width: u32, marks: &mut [u8])
    requires marks_len_bound { (length marks.old ≤ tallest) × (width ≤ widest) }
    ensures { Marks (actions_in old.now) (actions_in new.now) width (length marks.old) marks.new }
{
    marks.fill(LATER);
    let height = marks.len() as u32;
    let mut y: u32 = 0;
    while y < height {
        compare::turn(marks, LATER, BESIDE);
        walk(old, new, width, y, marks);
        y = seek(marks, y, LATER);
    }
}

// By a `for`: the count of a filtered iterator is no sum from the front, as `marked` is.
fn count(marks: &[u8]) -> u32
    requires { length marks.now ≤ tallest }
    ensures { result ≡ marked marks.now (length marks.now) }
{
    let mut rows = 0;
    for mark in marks {
        if *mark == 1 {
            rows += 1;
        }
    }
    rows
}

// Marks the rows, one byte of `marks` for each, paints those that are marked, and counts them.
pub fn repaint(
    old: &Screen,
    new: &Screen,
    width: u32,
    picture: &mut [u8],
    tags: &mut [u8],
    marks: &mut [u8],
) -> u32
    requires marks_len_bound { (length marks.old ≤ tallest) × HoldRows width (length marks.old) picture.old tags.old }
    ensures marks { Marks (actions_in old.now) (actions_in new.now) width (length marks.old) marks.new }
    ensures picture_after { picture.new ≡ patched marks.new
        (row_colours new.now.memory.now (actions_in new.now) width)
        (3 * width)
        picture.old }
    ensures tags_after { tags.new ≡ patched marks.new
        (row_tags new.now.memory.now (actions_in new.now) width)
        width
        tags.old }
    ensures value { result ≡ marked marks.new (length marks.old) }
{
    mark(old, new, width, marks);
    let rows = count(marks);
    if 0 < rows {
        paint::paint_marked(new, width, marks, picture, tags);
    }
    rows
}
