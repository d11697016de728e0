// An action into its own numbers and places. Stores go from the front on, as `stored_from` has them.
ghost use Rattle.std.specs.Prelude.{◌≡◌, ◌∷◌};
ghost use Rattle.store.specs.Writing.{stored_from, mask_numbers, ink_numbers, area_places, drawing_numbers, drawing_places, numbers_of, places_of};

use crate::{BITMAP, CLEAR, NUMBERS, PLACES, POINT, RECTANGLE, SEGMENT};
use action::{Action, Area, Bitmap, Clear, Drawing, Ink, Masks};

fn put_masks(masks: Masks, numbers: &mut [u32; NUMBERS])
    ensures { numbers.new ≡ stored_from 0 numbers.old (mask_numbers masks) }
{
    numbers[0] = masks.red;
    numbers[1] = masks.green;
    numbers[2] = masks.blue;
    numbers[3] = masks.alpha;
    numbers[4] = masks.stencil;
    numbers[5] = masks.tag;
}

fn put_clear(clear: Clear, numbers: &mut [u32; NUMBERS])
    ensures { numbers.new ≡ stored_from 6 numbers.old (drawing_numbers (Drawing.Clear clear)) }
{
    numbers[6] = CLEAR;
    numbers[7] = clear.colour;
    numbers[8] = clear.stencil;
    numbers[9] = clear.tag;
    numbers[10] = clear.values.red;
    numbers[11] = clear.values.green;
    numbers[12] = clear.values.blue;
    numbers[13] = clear.values.alpha;
    numbers[14] = clear.values.stencil;
    numbers[15] = clear.values.tag;
}

// The kind of what is drawn, and what it is drawn with.
fn put_ink(kind: u32, ink: Ink, numbers: &mut [u32; NUMBERS])
    ensures { numbers.new ≡ stored_from 6 numbers.old (kind ∷ ink_numbers ink) }
{
    numbers[6] = kind;
    numbers[7] = ink.colour.red;
    numbers[8] = ink.colour.green;
    numbers[9] = ink.colour.blue;
    numbers[10] = ink.colour.alpha;
    numbers[11] = u32::from(ink.alpha.test);
    numbers[12] = ink.alpha.reference;
    numbers[13] = u32::from(ink.stencil.test);
    numbers[14] = ink.stencil.reference;
    numbers[15] = ink.stencil.mask;
    numbers[16] = u32::from(ink.actions.fail);
    numbers[17] = u32::from(ink.actions.pass);
    numbers[18] = u32::from(ink.blend.source);
    numbers[19] = u32::from(ink.blend.target);
    numbers[20] = ink.tag;
}

fn put_scissor(area: Area, places: &mut [u64; PLACES])
    ensures { places.new ≡ stored_from 0 places.old (area_places area) }
{
    places[0] = area.left.0;
    places[1] = area.top.0;
    places[2] = area.right.0;
    places[3] = area.bottom.0;
}

fn put_drawing_numbers(drawing: Drawing, numbers: &mut [u32; NUMBERS])
    ensures { numbers.new ≡ stored_from 6 numbers.old (drawing_numbers drawing) }
{
    match drawing {
        Drawing::Clear(clear) => put_clear(clear, numbers),
        Drawing::Point(point, ink) => {
            put_ink(POINT, ink, numbers);
            numbers[21] = point.size.0;
        }
        Drawing::Rectangle(rectangle, ink) => {
            put_ink(RECTANGLE, ink, numbers);
            numbers[21] = rectangle.width.0;
        }
        Drawing::Bitmap(bitmap, ink) => {
            put_ink(BITMAP, ink, numbers);
            numbers[21] = bitmap.start;
            numbers[22] = u32::from(bitmap.format);
            numbers[23] = bitmap.stride;
            numbers[24] = bitmap.height;
        }
        Drawing::Segment(segment, ink) => {
            put_ink(SEGMENT, ink, numbers);
            numbers[21] = segment.width.0;
            numbers[22] = segment.primitive;
        }
    }
}

fn put_drawing_places(drawing: Drawing, places: &mut [u64; PLACES])
    ensures { places.new ≡ stored_from 4 places.old (drawing_places drawing) }
{
    match drawing {
        Drawing::Clear(_) => {}
        Drawing::Point(point, _) => {
            places[4] = point.x.0;
            places[5] = point.y.0;
        }
        Drawing::Rectangle(rectangle, _) => {
            places[4] = rectangle.left.0;
            places[5] = rectangle.top.0;
            places[6] = rectangle.right.0;
            places[7] = rectangle.bottom.0;
        }
        Drawing::Bitmap(bitmap, _) => {
            places[4] = bitmap.area.left.0;
            places[5] = bitmap.area.top.0;
            places[6] = bitmap.area.right.0;
            places[7] = bitmap.area.bottom.0;
        }
        Drawing::Segment(segment, _) => {
            places[4] = segment.from.x.0;
            places[5] = segment.from.y.0;
            places[6] = segment.to.x.0;
            places[7] = segment.to.y.0;
        }
    }
}

#[tactic(auto, unfolding(crate::specs::Writing::numbers_of, crate::specs::Writing::places_of))]
pub fn put_action(action: Action, numbers: &mut [u32; NUMBERS], places: &mut [u64; PLACES])
    ensures numbers_after { numbers.new ≡ stored_from 0 numbers.old (numbers_of action) }
    ensures places_after { places.new ≡ stored_from 0 places.old (places_of action) }
{
    put_masks(action.masks, numbers);
    put_drawing_numbers(action.drawing, numbers);
    put_scissor(action.scissor, places);
    put_drawing_places(action.drawing, places);
}
