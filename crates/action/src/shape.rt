// Which pixels are covered.
ghost use Rattle.std.specs.Prelude.{◌≡◌};
ghost use Rattle.action.specs.Corners.{corners_in_order};
ghost use Rattle.action.specs.Ends.{short_end, short_ends};
ghost use Rattle.action.specs.Same.{Tells};

use crate::numbers::Format;
use units::{LengthInSixteenths, Pixels, Sixteenths};

// Left and top are in, right and bottom are not: a top left pixel and a size, as document 01 has scissors and bitmaps,
// kept as where they end.
#[derive(Clone, Copy, PartialEq, Eq)]
pub struct Area {
    pub left: Pixels,
    pub top: Pixels,
    pub right: Pixels,
    pub bottom: Pixels,
}

impl Area {
    pub fn is(self, other: Area) -> bool
        ensures { Tells result (self ≡ other) }
    {
        self == other
    }
}

#[derive(Clone, Copy, PartialEq, Eq)]
pub struct Point {
    pub x: Sixteenths,
    pub y: Sixteenths,
    pub size: LengthInSixteenths,
}

impl Point {
    pub fn is(self, other: Point) -> bool
        ensures { Tells result (self ≡ other) }
    {
        self == other
    }
}

// The corners in order, x and y apart, and the line width.
#[derive(Clone, Copy, PartialEq, Eq)]
pub struct Rectangle {
    pub left: Sixteenths,
    pub top: Sixteenths,
    pub right: Sixteenths,
    pub bottom: Sixteenths,
    pub width: LengthInSixteenths,
}

impl Rectangle {
    pub fn is(self, other: Rectangle) -> bool
        ensures { Tells result (self ≡ other) }
    {
        self == other
    }

    // The one of two corners, which are put in order, x and y apart.
    #[tactic(auto, unfolding(crate::specs::Corners::corners_in_order))]
    pub fn of(a: End, b: End, width: LengthInSixteenths) -> Rectangle
        ensures { result ≡ corners_in_order a.x a.y b.x b.y width }
    {
        Rectangle {
            left: a.x.min(b.x),
            top: a.y.min(b.y),
            right: a.x.max(b.x),
            bottom: a.y.max(b.y),
            width,
        }
    }
}

// An end of a line.
#[derive(Clone, Copy, PartialEq, Eq)]
pub struct End {
    pub x: Sixteenths,
    pub y: Sixteenths,
}

impl End {
    pub fn is(self, other: End) -> bool
        ensures { Tells result (self ≡ other) }
    {
        self == other
    }

    #[tactic(auto, unfolding(crate::specs::Ends::short_end))]
    fn is_short(self) -> bool
        ensures { result ≡ short_end self }
    {
        self.x.is_short() && self.y.is_short()
    }
}

// The ends in the order given, the line width, and the primitive: 3 for LINES, 4 for LINE_STRIP.
#[derive(Clone, Copy, PartialEq, Eq)]
pub struct Segment {
    pub from: End,
    pub to: End,
    pub width: LengthInSixteenths,
    pub primitive: u32,
}

impl Segment {
    pub fn is(self, other: Segment) -> bool
        ensures { Tells result (self ≡ other) }
    {
        self == other
    }

    // Whether it may be drawn: an end further out is refused.
    #[tactic(auto, unfolding(crate::specs::Ends::short_ends))]
    pub fn is_short(self) -> bool
        ensures { result ≡ short_ends self }
    {
        self.from.is_short() && self.to.is_short()
    }
}

// Where a bitmap is drawn, and how its cell lies in RAM_G: its first byte, format, stride and layout height.
#[derive(Clone, Copy, PartialEq, Eq)]
pub struct Bitmap {
    pub area: Area,
    pub start: u32,
    pub format: Format,
    pub stride: u32,
    pub height: u32,
}

impl Bitmap {
    pub fn is(self, other: Bitmap) -> bool
        ensures { Tells result (self ≡ other) }
    {
        self == other
    }
}
