// Two lists side by side, each at an action or at its end: which of them goes on, and what that tells of the rows.
ghost use Rattle.std.specs.Prelude.{◌≡◌, ◌<◌, ◌≤◌, length, get_or};
ghost use Rattle.action.specs.Same.{Tells};
ghost use Rattle.units.specs.Units.{tallest, widest};
ghost use Rattle.repaint.specs.Rows.{Bounded, Compares, Stood, Touches, Turns, beside, meets_row, pace_of, standing};

use action::Action;
use shape::{Rows, reach};
use units::TALLEST;

// How a row stands that has no mark yet. A byte like the marks, 0 and 1: it stands in the lent run that will hold them.
pub const LATER: u8 = 2;

pub const BESIDE: u8 = 3;

// Which of the two lists goes on.
#[derive(Clone, Copy)]
pub struct Pace {
    pub old: bool,
    pub new: bool,
}

// Numbers that compare as what the two lists have ahead of them does.
#[derive(Clone, Copy)]
pub struct Ahead {
    pub old: u64,
    pub new: u64,
}

// Whether the two lists came to the same: to equal actions, or both to their end.
fn is_same(old: Option<Action>, new: Option<Action>) -> bool
    ensures { Tells result (old ≡ new) }
{
    match (old, new) {
        (Some(a), Some(b)) => a.is(b),
        (None, None) => true,
        _ => false,
    }
}

// Nothing comes any more of a list that has ended: that tells of every row, as an action does of the rows that it reaches.
#[tactic(auto, unfolding(crate::specs::Rows::meets_row))]
fn meets(find: Option<Action>, width: u32, y: u32) -> bool
    requires { (width ≤ widest) × (y < tallest) }
    ensures { result ≡ meets_row find width y }
{
    match find {
        Some(action) => reach::reaches(action, width, y),
        None => true,
    }
}

fn rows_of(find: Option<Action>) -> Rows<u32>
    ensures { Bounded find result.top result.bottom }
{
    match find {
        Some(action) => reach::rows_of(action),
        None => Rows {
            top: 0,
            bottom: TALLEST,
        },
    }
}

// By row y: a list whose action reaches the row waits. Where both could go on, the one does that has more of its list ahead:
// past words that were put in or taken out, the two then come to the same action again.
#[tactic(auto, unfolding(crate::specs::Rows::pace_of))]
fn choose(old: Option<Action>, new: Option<Action>, ahead: Ahead, width: u32, y: u32) -> Pace
    requires { (width ≤ widest) × (y < tallest) }
    ensures { result ≡ pace_of old new ahead.old ahead.new width y }
{
    let a = meets(old, width, y);
    let b = meets(new, width, y);
    Pace {
        old: !a & (b | (ahead.new <= ahead.old)),
        new: !b & (a | (ahead.old <= ahead.new)),
    }
}

// What becomes of a row that stands beside. One that a passed action alone reaches is left for later.
#[tactic(auto, unfolding(crate::specs::Rows::standing))]
fn stand(old: bool, new: bool, pace: Pace) -> u8
    ensures { result ≡ standing old new pace }
{
    if old & new {
        return 1;
    }
    if (old & pace.old) | (new & pace.new) {
        return LATER;
    }
    BESIDE
}

// The rows that can stand otherwise after this step: those of the actions that are passed.
fn touched(old: Option<Action>, new: Option<Action>, pace: Pace) -> Rows<u32>
    ensures { Touches old new pace result.top result.bottom }
{
    if !pace.new {
        return rows_of(old);
    }
    if !pace.old {
        return rows_of(new);
    }
    let a = rows_of(old);
    let b = rows_of(new);
    Rows {
        top: a.top.min(b.top),
        bottom: a.bottom.max(b.bottom),
    }
}

fn settle(
    old: Option<Action>,
    new: Option<Action>,
    pace: Pace,
    width: u32,
    from: u32,
    to: u32,
    marks: &mut [u8],
)
    requires { Touches old new pace from to × ((length marks.old ≤ tallest) × (width ≤ widest)) }
    ensures { Stood width old new pace marks.old marks.new }
{
    for y in from as usize..marks.len().min(to as usize) {
        if marks[y] == BESIDE {
            let a = meets(old, width, y as u32);
            let b = meets(new, width, y as u32);
            marks[y] = stand(a, b, pace);
        }
    }
}

// Rows that stand in the one way stand in the other from now on.
pub fn turn(marks: &mut [u8], was: u8, then: u8)
    ensures { Turns was then marks.old marks.new }
{
    for y in 0..marks.len() {
        if marks[y] == was {
            marks[y] = then;
        }
    }
}

// Row y stands beside, and is not left for later.
pub fn compare(
    old: Option<Action>,
    new: Option<Action>,
    ahead: Ahead,
    width: u32,
    y: u32,
    marks: &mut [u8],
) -> Pace
    requires { ((y < length marks.old) × (get_or marks.old y 0 ≡ beside)) × ((length marks.old ≤ tallest) × (width ≤ widest)) }
    ensures { Compares width y old new result marks.old marks.new }
{
    if is_same(old, new) {
        if old.is_some() {
            return Pace {
                old: true,
                new: true,
            };
        }
        turn(marks, BESIDE, 0);
        return Pace {
            old: false,
            new: false,
        };
    }
    let pace = choose(old, new, ahead, width, y);
    let rows = touched(old, new, pace);
    settle(old, new, pace, width, rows.top, rows.bottom, marks);
    pace
}
