// An action out of its own numbers and places.
ghost use Rattle.std.specs.Prelude.{◌≡◌};
ghost use Rattle.store.specs.Reading.{masks_of, clear_of, ink_of, scissor_of, point_of, rectangle_of, bitmap_of, segment_of, drawing_of, action_of};

use crate::{BITMAP, CLEAR, NUMBERS, PLACES, POINT, RECTANGLE};
use action::{
    Action, AlphaTest, Area, Bitmap, Blend, Clear, ClearValues, Colour, Drawing, End, Factor,
    Format, Ink, Masks, Point, Rectangle, Segment, StencilAction, StencilActions, StencilTest,
    Test,
};
use units::{LengthInSixteenths, Pixels, Sixteenths};

// An action's own numbers and places.
#[derive(Drop)]
pub struct Slot<'a> {
    pub numbers: &'a [u32; NUMBERS],
    pub places: &'a [u64; PLACES],
}

impl Slot<'_> {
    #[tactic(auto, unfolding(crate::specs::Reading::masks_of))]
    fn masks(&self) -> Masks
        ensures { result ≡ masks_of self.now.numbers.now }
    {
        Masks {
            red: self.numbers[0],
            green: self.numbers[1],
            blue: self.numbers[2],
            alpha: self.numbers[3],
            stencil: self.numbers[4],
            tag: self.numbers[5],
        }
    }

    #[tactic(auto, unfolding(crate::specs::Reading::clear_of))]
    fn clear(&self) -> Clear
        ensures { result ≡ clear_of self.now.numbers.now }
    {
        Clear {
            colour: self.numbers[7],
            stencil: self.numbers[8],
            tag: self.numbers[9],
            values: ClearValues {
                red: self.numbers[10],
                green: self.numbers[11],
                blue: self.numbers[12],
                alpha: self.numbers[13],
                stencil: self.numbers[14],
                tag: self.numbers[15],
            },
        }
    }

    #[tactic(auto, unfolding(crate::specs::Reading::ink_of))]
    fn ink(&self) -> Ink
        ensures { result ≡ ink_of self.now.numbers.now }
    {
        Ink {
            colour: Colour {
                red: self.numbers[7],
                green: self.numbers[8],
                blue: self.numbers[9],
                alpha: self.numbers[10],
            },
            alpha: AlphaTest {
                test: Test::from(self.numbers[11]),
                reference: self.numbers[12],
            },
            stencil: StencilTest {
                test: Test::from(self.numbers[13]),
                reference: self.numbers[14],
                mask: self.numbers[15],
            },
            actions: StencilActions {
                fail: StencilAction::from(self.numbers[16]),
                pass: StencilAction::from(self.numbers[17]),
            },
            blend: Blend {
                source: Factor::from(self.numbers[18]),
                target: Factor::from(self.numbers[19]),
            },
            tag: self.numbers[20],
        }
    }

    #[tactic(auto, unfolding(crate::specs::Reading::scissor_of))]
    fn scissor(&self) -> Area
        ensures { result ≡ scissor_of self.now.places.now }
    {
        Area {
            left: Pixels(self.places[0]),
            top: Pixels(self.places[1]),
            right: Pixels(self.places[2]),
            bottom: Pixels(self.places[3]),
        }
    }

    #[tactic(auto, unfolding(crate::specs::Reading::point_of))]
    fn point(&self) -> Point
        ensures { result ≡ point_of self.now.numbers.now self.now.places.now }
    {
        Point {
            x: Sixteenths(self.places[4]),
            y: Sixteenths(self.places[5]),
            size: LengthInSixteenths(self.numbers[21]),
        }
    }

    #[tactic(auto, unfolding(crate::specs::Reading::rectangle_of))]
    fn rectangle(&self) -> Rectangle
        ensures { result ≡ rectangle_of self.now.numbers.now self.now.places.now }
    {
        Rectangle {
            left: Sixteenths(self.places[4]),
            top: Sixteenths(self.places[5]),
            right: Sixteenths(self.places[6]),
            bottom: Sixteenths(self.places[7]),
            width: LengthInSixteenths(self.numbers[21]),
        }
    }

    #[tactic(auto, unfolding(crate::specs::Reading::bitmap_of))]
    fn bitmap(&self) -> Bitmap
        ensures { result ≡ bitmap_of self.now.numbers.now self.now.places.now }
    {
        Bitmap {
            area: Area {
                left: Pixels(self.places[4]),
                top: Pixels(self.places[5]),
                right: Pixels(self.places[6]),
                bottom: Pixels(self.places[7]),
            },
            start: self.numbers[21],
            format: Format::from(self.numbers[22]),
            stride: self.numbers[23],
            height: self.numbers[24],
        }
    }

    #[tactic(auto, unfolding(crate::specs::Reading::segment_of))]
    fn segment(&self) -> Segment
        ensures { result ≡ segment_of self.now.numbers.now self.now.places.now }
    {
        Segment {
            from: End {
                x: Sixteenths(self.places[4]),
                y: Sixteenths(self.places[5]),
            },
            to: End {
                x: Sixteenths(self.places[6]),
                y: Sixteenths(self.places[7]),
            },
            width: LengthInSixteenths(self.numbers[21]),
            primitive: self.numbers[22],
        }
    }

    // Each arm returns, since a value of the match would be copied once more.
    #[tactic(auto, unfolding(crate::specs::Reading::drawing_of))]
    fn drawing(&self) -> Drawing
        ensures { result ≡ drawing_of self.now.numbers.now self.now.places.now }
    {
        match self.numbers[6] {
            CLEAR => return Drawing::Clear(self.clear()),
            POINT => return Drawing::Point(self.point(), self.ink()),
            RECTANGLE => return Drawing::Rectangle(self.rectangle(), self.ink()),
            BITMAP => return Drawing::Bitmap(self.bitmap(), self.ink()),
            _ => return Drawing::Segment(self.segment(), self.ink()),
        }
    }

    #[tactic(auto, unfolding(crate::specs::Reading::action_of))]
    pub fn action(&self) -> Action
        ensures { result ≡ action_of self.now.numbers.now self.now.places.now }
    {
        Action {
            scissor: self.scissor(),
            masks: self.masks(),
            drawing: self.drawing(),
        }
    }
}
