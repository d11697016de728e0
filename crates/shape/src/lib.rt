// What an action covers, colours apart: row by row, so that a painter asks about few rows, and about few columns of
// each.
#![tactic(auto)]

ghost use Rattle.std.specs.Prelude.{◌≡◌};
ghost use Rattle.shape.specs.Cover.{outside, between, reaches_row};
ghost use Rattle.shape.specs.Lines.{OnScreen};
ghost use Rattle.shape.specs.OneRow.{Sampled, InFrame, holds_in, Flat, Chords, Reached, Bounds, Shown, Narrows, square_of, boxed, flat_over, no_column, cut_to};

mod line;
pub mod reach;

use action::{Area, Point, Rectangle, Segment};
use units::{Pixels, Sixteenths};

// No pixel from here on has a sample of 64 bits.
const PIXELS: u64 = 0x1000_0000_0000_0000;

const LAST_SIXTEENTH: u64 = u64::MAX;

// No size is larger.
const LONGEST: u64 = u32::MAX as u64;

#[derive(Clone, Copy)]
pub enum Outline {
    Nothing,
    Everything,
    Point(Point),
    Rectangle(Rectangle),
    Area(Area),
    Segment(Segment),
}

// One row of an outline. No column left of `left` or from `right` on is covered, and one between them is exactly if its
// sample is not too far from `near`..`far`: the squared distance is below `room`.
#[derive(Clone, Copy)]
pub struct Chord {
    pub left: Pixels,
    pub right: Pixels,
    pub near: Sixteenths,
    pub far: Sixteenths,
    pub room: u64,
}

// Rows, by their places or by their numbers in a frame: `top` is in, `bottom` is not.
#[derive(Clone, Copy)]
pub struct Rows<T> {
    pub top: T,
    pub bottom: T,
}

// How far a position lies from a closed range.
fn gap(s: Sixteenths, low: Sixteenths, high: Sixteenths) -> u64
    ensures { result ≡ outside s low high }
{
    low.0.saturating_sub(s.0) + s.0.saturating_sub(high.0)
}

// A point covers what this rectangle does, so that only rectangles and areas are worked out.
fn square(point: Point) -> Rectangle
    ensures { result ≡ square_of point }
{
    Rectangle {
        left: point.x,
        top: point.y,
        right: point.x,
        bottom: point.y,
        width: point.size,
    }
}

fn has_row(area: Area, q: Pixels) -> bool
    ensures { result ≡ between area.top.0 area.bottom.0 q.0 }
{
    (area.top <= q) & (q < area.bottom)
}

impl Chord {
    // Whether the column is covered, if it lies from `left` on and before `right`.
    pub fn holds(self, p: Pixels) -> bool
        requires { Sampled p }
        ensures { result ≡ holds_in self p }
    {
        let d = gap(p.sample(), self.near, self.far);
        d <= LONGEST && d * d < self.room
    }

    // Whether it holds every column, so that none needs to be asked about.
    #[tactic(auto, using(crate::proofs::Columns::flat_holds))]
    pub fn is_flat(self) -> bool
        ensures { Flat self result }
    {
        self.near.0 == 0 && self.far.0 == LAST_SIXTEENTH && 0 < self.room
    }

    // Each column from the one to the other.
    fn flat(left: Pixels, right: Pixels) -> Chord
        ensures { result ≡ flat_over left right }
    {
        Chord {
            left,
            right,
            near: Sixteenths(0),
            far: Sixteenths(LAST_SIXTEENTH),
            room: 1,
        }
    }

    // No column.
    fn none() -> Chord
        ensures { result ≡ no_column }
    {
        let edge = Pixels::of(0);
        Chord::flat(edge, edge)
    }

    #[tactic(auto, using(crate::proofs::Columns::area_has, crate::proofs::Columns::area_off))]
    fn of_area(area: Area, q: Pixels) -> Chord
        ensures { Chords (Outline.Area area) q result }
    {
        if has_row(area, q) {
            return Chord::flat(area.left, area.right);
        }
        Chord::none()
    }

    // By Pythagoras: what the row's distance leaves of the squared width is for the column's.
    fn of_rectangle(rectangle: Rectangle, q: Pixels) -> Chord
        requires { Sampled q }
        ensures { Chords (Outline.Rectangle rectangle) q result }
    {
        let width = rectangle.width.0 as u64;
        let d = gap(q.sample(), rectangle.top, rectangle.bottom);
        if width < d {
            return Chord::none();
        }
        Chord {
            left: rectangle.left.first_near(rectangle.width),
            right: rectangle.right.end_near(rectangle.width),
            near: rectangle.left,
            far: rectangle.right,
            room: width * width - d * d + 1,
        }
    }

    // The columns that lie in the scissor's columns and in a frame of this width.
    fn cut(self, scissor: Area, width: u32) -> Chord
        ensures { result ≡ cut_to scissor width self }
    {
        Chord {
            left: Pixels::of(0).max(self.left.max(scissor.left)),
            right: Pixels::of(width).min(self.right.min(scissor.right)),
            ..self
        }
    }
}

impl Rows<Pixels> {
    #[tactic(auto, using(crate::proofs::Columns::rectangle_rows))]
    fn of_rectangle(rectangle: Rectangle) -> Rows<Pixels>
        ensures { Bounds (Outline.Rectangle rectangle) result }
    {
        Rows {
            top: rectangle.top.first_near(rectangle.width),
            bottom: rectangle.bottom.end_near(rectangle.width),
        }
    }
}

impl Outline {
    // What is covered of row q, and of a segment what the rectangle around it covers.
    #[tactic(auto, using(crate::proofs::Columns::nothing_has, crate::proofs::Columns::everything_has, crate::proofs::Columns::point_has))]
    fn on_row(self, q: Pixels) -> Chord
        requires { Sampled q }
        ensures { Chords (boxed self) q result }
    {
        match self {
            Outline::Nothing => Chord::none(),
            Outline::Everything => Chord::flat(Pixels(0), Pixels(PIXELS)),
            Outline::Point(point) => Chord::of_rectangle(square(point), q),
            Outline::Rectangle(rectangle) => Chord::of_rectangle(rectangle, q),
            Outline::Area(area) => Chord::of_area(area, q),
            Outline::Segment(segment) => Chord::of_rectangle(line::around(segment), q),
        }
    }

    // The rows outside of which nothing is covered.
    #[tactic(auto, using(crate::proofs::Columns::nothing_rows, crate::proofs::Columns::point_rows, crate::proofs::Columns::area_rows, crate::proofs::Narrowing::segment_rows))]
    pub fn rows(self) -> Rows<Pixels>
        ensures { Bounds self result }
    {
        match self {
            Outline::Nothing => Rows {
                top: Pixels(0),
                bottom: Pixels(0),
            },
            Outline::Everything => Rows {
                top: Pixels(0),
                bottom: Pixels(PIXELS),
            },
            Outline::Point(point) => Rows::of_rectangle(square(point)),
            Outline::Rectangle(rectangle) => Rows::of_rectangle(rectangle),
            Outline::Area(area) => Rows {
                top: area.top,
                bottom: area.bottom,
            },
            Outline::Segment(segment) => Rows::of_rectangle(line::around(segment)),
        }
    }

    // Of the columns that the chord has, those that are covered.
    #[tactic(auto, using(crate::proofs::Narrowing::plain_narrows))]
    fn narrow(self, chord: Chord, q: Pixels) -> Chord
        requires { OnScreen q.0 × Shown chord }
        ensures { Narrows self q chord result }
    {
        match self {
            Outline::Segment(segment) => line::columns(chord, segment, q),
            _ => chord,
        }
    }

    // What counts of row q: the covered columns in both scissor and frame.
    pub fn reach(self, scissor: Area, width: u32, q: Pixels) -> Chord
        requires { InFrame width q }
        ensures { Reached self scissor width q result }
    {
        if has_row(scissor, q) {
            return self.narrow(self.on_row(q).cut(scissor, width), q);
        }
        Chord::none()
    }

    // Whether a pixel of row q counts.
    pub fn reaches(self, scissor: Area, width: u32, q: Pixels) -> bool
        requires { InFrame width q }
        ensures { result ≡ reaches_row self scissor width q }
    {
        let chord = self.reach(scissor, width, q);
        for x in chord.left.0..chord.right.0 {
            if chord.holds(Pixels(x)) {
                return true;
            }
        }
        false
    }
}
