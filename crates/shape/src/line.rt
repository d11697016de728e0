// A segment of a line, row by row. Every number here fits 64 bits: its ends are short, and so are the samples of a
// frame.
ghost use Rattle.std.specs.Prelude.{true, ◌≡◌, ◌<◌, ◌-◌, ◌^◌};
ghost use Rattle.units.specs.Units.{short_from};
ghost use Rattle.action.specs.Ends.{short_ends};
ghost use Rattle.shape.specs.Cover.{squared, segment_covers};
ghost use Rattle.shape.specs.Lines.{Between, Close, Crosses, Leans, OnScreen, box_of, by_squares};
ghost use Rattle.shape.specs.OneRow.{Narrows, Shown};

use crate::{Chord, Outline, PIXELS};
use action::{End, Rectangle, Segment};
use units::{LengthInSixteenths, Pixels, Sixteenths};

// A segment covers nothing that this rectangle does not.
pub fn around(segment: Segment) -> Rectangle
    ensures { result ≡ box_of segment }
{
    Rectangle::of(segment.from, segment.to, segment.width)
}

// The squared distance of two places.
#[tactic(auto, unfolding(crate::specs::Cover::squared), using(crate::proofs::Sizes::leg_small))]
fn squared(a: End, b: End) -> u64
    requires { Close a × Close b }
    ensures value { result ≡ squared a b }
    ensures upper_bound { result < 2 ^ 33 }
{
    let across = a.x.apart(b.x);
    let down = a.y.apart(b.y);
    across * across + down * down
}

// Whether a segment comes near enough to a sample, by squares: a and b of the sample's distances to the ends, `length`
// of theirs. Let a and b be too large by x and y. The mean of the ends by weights k and n is near enough exactly if
// k * k * x + n * n * y is at most k * n times what x and y leave of the length, and some k and n make it so exactly if
// 4 * x * y is at most the square of that rest.
#[tactic(auto, unfolding(crate::specs::Lines::by_squares), using(crate::proofs::Sizes::product_small))]
fn by_squares(a: u64, b: u64, length: u64, enough: u64) -> bool
    requires { (a < 2 ^ 33) × ((b < 2 ^ 33) × (length < 2 ^ 33)) }
    ensures { result ≡ by_squares a b length enough }
{
    if a <= enough || b <= enough {
        return true;
    }
    let x = a - enough;
    let y = b - enough;
    if length < x + y {
        return false;
    }
    let rest = length - (x + y);
    x * y <= rest / 2 * (rest - rest / 2)
}

// Whether the segment covers the pixel.
#[tactic(auto, using(crate::proofs::Sizes::ends_close, crate::proofs::Sizes::sample_close))]
fn covers(segment: Segment, p: Pixels, q: Pixels) -> bool
    requires { (short_ends segment ≡ true) × (OnScreen p.0 × OnScreen q.0) }
    ensures { result ≡ segment_covers segment p q }
{
    let Segment { from, to, .. } = segment;
    let width = segment.width.0 as u64;
    let sample = End {
        x: p.sample(),
        y: q.sample(),
    };
    by_squares(
        squared(sample, from),
        squared(sample, to),
        squared(from, to),
        width * width,
    )
}

// A place that is close, counted from where the short positions begin.
#[derive(Clone, Copy)]
struct Place {
    x: u64,
    y: u64,
    ghost small: { (x < 2 ^ 16) × (y < 2 ^ 16) },
}

impl Place {
    fn of(end: End) -> Place
        requires { Close end }
        ensures { (result.x ≡ end.x.0 - short_from) × (result.y ≡ end.y.0 - short_from) }
    {
        Place {
            x: end.x.counted(),
            y: end.y.counted(),
        }
    }
}

// The columns where rise times the sample, and `under`, come as near to `more` as `slack`.
fn crossing(more: u64, under: u64, slack: u64, rise: u64) -> Chord
    requires { (0 < rise) × ((more < 2 ^ 40) × ((under < 2 ^ 40) × (slack < 2 ^ 52))) }
    ensures { Crosses more under slack rise result }
{
    let low = more.saturating_sub(under + slack) / rise;
    let high = (more + slack).saturating_sub(under) / rise;
    Chord::flat(
        Sixteenths::short(low).first_near(LengthInSixteenths(0)),
        Sixteenths::short(high).end_near(LengthInSixteenths(0)),
    )
}

// The columns in which a row at y comes near the line through two places; all of them, if that does not cross the row.
fn leaning(a: Place, b: Place, y: u64, slack: u64) -> Chord
    requires { (y < 2 ^ 16) × (slack < 2 ^ 52) }
    ensures { Leans a.x a.y b.x b.y y slack result }
{
    let one = a.x * b.y + y * b.x;
    let other = b.x * a.y + y * a.x;
    if a.y < b.y {
        return crossing(one, other, slack, b.y - a.y);
    }
    if b.y < a.y {
        return crossing(other, one, slack, a.y - b.y);
    }
    Chord::flat(Pixels(0), Pixels(PIXELS))
}

// The columns in which row q comes near the line through the ends: times the rise, no further across than the width
// times the ends' distances across and down together, which are at least their distance.
#[tactic(auto, using(crate::proofs::Sizes::ends_close, crate::proofs::Sizes::slack_small))]
fn near_line(segment: Segment, q: Pixels) -> Chord
    requires { (short_ends segment ≡ true) × OnScreen q.0 }
    ensures { Between segment q result.left.0 result.right.0 }
{
    let Segment { from, to, .. } = segment;
    let slack = segment.width.0 as u64 * (from.x.apart(to.x) + from.y.apart(to.y));
    leaning(Place::of(from), Place::of(to), q.sample().counted(), slack)
}

// Of the chord's columns, those from the first to the last that the segment covers: it has no gap.
pub fn columns(chord: Chord, segment: Segment, q: Pixels) -> Chord
    requires { OnScreen q.0 × Shown chord }
    ensures { Narrows (Outline.Segment segment) q chord result }
{
    if !segment.is_short() {
        return Chord::none();
    }
    let line = near_line(segment, q);
    let left = chord.left.max(line.left);
    let right = chord.right.min(line.right);
    let Some(first) = (left.0..right.0).find(|x| covers(segment, Pixels(*x), q)) else {
        return Chord::none();
    };
    let last = (first..right.0)
        .rev()
        .find(|x| covers(segment, Pixels(*x), q))
        .unwrap_or(first);
    Chord::flat(Pixels(first), Pixels(last + 1))
}
