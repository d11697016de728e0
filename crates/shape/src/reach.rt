// What a drawing covers, and which rows of a frame an action reaches.
ghost use Rattle.std.specs.Prelude.{◌≡◌, ◌<◌, ◌≤◌};
ghost use Rattle.units.specs.Units.{pixel_at, tallest, widest};
ghost use Rattle.shape.specs.Cover.{outline_of, reaches_row};
ghost use Rattle.shape.specs.Reach.{Bands};

use crate::{Outline, Rows};
use action::{Action, Drawing};
use units::{Pixels, TALLEST};

#[tactic(auto, unfolding(crate::specs::Cover::outline_of))]
pub fn outline(drawing: Drawing) -> Outline
    ensures { result ≡ outline_of drawing }
{
    match drawing {
        Drawing::Clear(clear) => if clear.is_any() {
            Outline::Everything
        } else {
            Outline::Nothing
        },
        Drawing::Point(point, _) => Outline::Point(point),
        Drawing::Rectangle(rectangle, _) => Outline::Rectangle(rectangle),
        Drawing::Bitmap(bitmap, _) => Outline::Area(bitmap.area),
        Drawing::Segment(segment, _) => Outline::Segment(segment),
    }
}

// The rows of a frame that the action can reach.
pub fn rows_of(action: Action) -> Rows<u32>
    ensures { Bands action result.top result.bottom }
{
    let rows = outline(action.drawing).rows();
    Rows {
        top: rows.top.max(action.scissor.top).before(TALLEST),
        bottom: rows.bottom.min(action.scissor.bottom).before(TALLEST),
    }
}

// Whether the action reaches row y of a frame of this width.
pub fn reaches(action: Action, width: u32, y: u32) -> bool
    requires { (width ≤ widest) × (y < tallest) }
    ensures { result ≡ reaches_row (outline_of action.drawing) action.scissor width (pixel_at y) }
{
    outline(action.drawing).reaches(action.scissor, width, Pixels::of(y))
}
