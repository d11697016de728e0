// Drawing actions kept as plain numbers in two lent arrays, so that a list is run once and each row reads its actions back.
// An action takes NUMBERS entries of the one array and PLACES of the other. Which value lies where:
//
//   numbers   0 to 5 the masks; 6 the kind: 0 a clear, 1 a point, 2 a rectangle, 3 a bitmap, 4 a segment
//     a clear   7 to 9 its flags, 10 to 15 what it clears to
//     others    7 to 10 colour, 11 and 12 alpha test, 13 to 15 stencil test, 16 and 17 stencil actions, 18 and 19 blend, 20 tag
//     and       21 a point's size, a rectangle's or a segment's width or a bitmap's start; 22 a segment's primitive, or 22 to 24 a bitmap's
//               format, stride and height
//   places    0 to 3 the scissor; 4 to 7 a rectangle's corners, a segment's ends or a bitmap's area, 4 and 5 where a point lies
#![tactic(auto)]

ghost use Rattle.store.specs.Store.{Room, Put, kept_at};
ghost use Rattle.std.specs.Prelude.{◌≡◌};

use action::Action;

mod reading;
mod writing;

pub const NUMBERS: usize = 25;

pub const PLACES: usize = 8;

// The kinds.
const CLEAR: u32 = 0;

const POINT: u32 = 1;

const RECTANGLE: u32 = 2;

const BITMAP: u32 = 3;

const SEGMENT: u32 = 4;

// Keeps an action as the k-th.
pub fn put(action: Action, k: usize, numbers: &mut [u32], places: &mut [u64])
    requires { Room k numbers.old places.old }
    ensures { Put action k numbers.old places.old numbers.new places.new }
{
    let (_, numbers) = numbers.split_at_mut(NUMBERS * k);
    let Some(numbers) = numbers.first_chunk_mut() else {
        unreachable!()
    };
    let (_, places) = places.split_at_mut(PLACES * k);
    let Some(places) = places.first_chunk_mut() else {
        unreachable!()
    };
    writing::put_action(action, numbers, places);
}

// The k-th action.
pub fn get(k: usize, numbers: &[u32], places: &[u64]) -> Action
    requires { Room k numbers.now places.now }
    ensures { result ≡ kept_at numbers.now places.now k }
{
    let (_, numbers) = numbers.split_at(NUMBERS * k);
    let Some(numbers) = numbers.first_chunk() else {
        unreachable!()
    };
    let (_, places) = places.split_at(PLACES * k);
    let Some(places) = places.first_chunk() else {
        unreachable!()
    };
    reading::Slot { numbers, places }.action()
}
