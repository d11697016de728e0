// A drawing action: the values of one CLEAR, point, rectangle, bitmap or segment of a line, as documents 01 and 02 list
// them. Two actions are compared by these values alone, so `==` is derived throughout. The law of `Eq` asks for an
// equivalence only, so `is` promises of each type that `==` is true exactly where two values are equal.
#![tactic(auto)]

ghost use Rattle.std.specs.Prelude.{◌≡◌};
ghost use Rattle.action.specs.Same.{Tells};

mod ink;
mod numbers;
mod shape;

pub use ink::{
    AlphaTest, Blend, Clear, ClearValues, Colour, Ink, Masks, StencilActions, StencilTest,
};
pub use numbers::{Factor, Format, StencilAction, Test};
pub use shape::{Area, Bitmap, End, Point, Rectangle, Segment};

#[derive(Clone, Copy, PartialEq, Eq)]
pub enum Drawing {
    Clear(Clear),
    Point(Point, Ink),
    Rectangle(Rectangle, Ink),
    Bitmap(Bitmap, Ink),
    Segment(Segment, Ink),
}

impl Drawing {
    pub fn is(self, other: Drawing) -> bool
        ensures { Tells result (self ≡ other) }
    {
        self == other
    }
}

#[derive(Clone, Copy, PartialEq, Eq)]
pub struct Action {
    pub scissor: Area,
    pub masks: Masks,
    pub drawing: Drawing,
}

impl Action {
    pub fn is(self, other: Action) -> bool
        ensures { Tells result (self ≡ other) }
    {
        self == other
    }
}
