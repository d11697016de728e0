// A vertex: where its word places it, and what it draws with the primitive that is begun.
ghost use Rattle.std.specs.Prelude.{◌≡◌, ◌≤◌};
ghost use Rattle.engine.specs.Handles.{bitmap_at};
ghost use Rattle.engine.specs.Run.{most_memory};
ghost use Rattle.engine.specs.Vertex.{unit_of, placed2f, placed2ii, end_at, pointed, rectangled, bitmapped, segment_from, segmented, vertexed};

use crate::context::Placing;
use crate::drawn::Primitive;
use crate::fault::Fault;
use crate::handles::Handles;
use crate::machine::{Event, Machine, Shape, Stepped};
use action::{End, Point, Rectangle, Segment};
use units::{LengthInSixteenths, Pixels, Sixteenths};

// BEGIN's numbers of the two primitives whose vertices end segments, as an action has them.
const LINES: u32 = 3;

const LINE_STRIP: u32 = 4;

// A vertex placed on the screen, with the handle and cell that it draws if BITMAPS is begun.
#[derive(Clone, Copy)]
pub struct Vertex {
    pub x: Sixteenths,
    pub y: Sixteenths,
    pub handle: u32,
    pub cell: u32,
}

impl Vertex {
    fn end(self) -> End
        ensures { result ≡ end_at self }
    {
        End {
            x: self.x,
            y: self.y,
        }
    }
}

// How many sixteenths VERTEX2F counts by.
fn unit(frac: u32) -> u32
    ensures value { result ≡ unit_of frac }
    ensures upper_bound { result ≤ 16 }
{
    match frac {
        0 => 16,
        1 => 8,
        2 => 4,
        3 => 2,
        _ => 1,
    }
}

#[tactic(auto, unfolding(crate::specs::Vertex::placed2f))]
pub fn place2f(p: Placing, x: i32, y: i32) -> Vertex
    ensures { result ≡ placed2f p x y }
{
    let u = unit(p.frac);
    Vertex {
        x: Sixteenths::of(x, u).moved(p.dx),
        y: Sixteenths::of(y, u).moved(p.dy),
        handle: p.handle,
        cell: p.cell,
    }
}

#[tactic(auto, unfolding(crate::specs::Vertex::placed2ii))]
pub fn place2ii(p: Placing, x: u32, y: u32, handle: u32, cell: u32) -> Vertex
    ensures { result ≡ placed2ii p x y handle cell }
{
    Vertex {
        x: Pixels::of(x).sample().moved(p.dx),
        y: Pixels::of(y).sample().moved(p.dy),
        handle,
        cell,
    }
}

fn point_event(v: Vertex, size: u32) -> Event
    ensures { result ≡ pointed v size }
{
    Event::Draw(Shape::Point(Point {
        x: v.x,
        y: v.y,
        size: LengthInSixteenths(size),
    }))
}

fn rectangle_event(c: End, v: Vertex, width: u32) -> Event
    ensures { result ≡ rectangled c v width }
{
    Event::Draw(Shape::Rectangle(Rectangle::of(c, v.end(), LengthInSixteenths(width))))
}

// The segment from the open end to the vertex.
#[tactic(auto, unfolding(crate::specs::Vertex::segmented, crate::specs::Vertex::segment_from))]
fn segment_event(from: End, v: Vertex, width: u32, primitive: u32) -> Event
    ensures { result ≡ segmented (segment_from from v width primitive) }
{
    let drawn = Segment {
        from,
        to: v.end(),
        width: LengthInSixteenths(width),
        primitive,
    };
    if drawn.is_short() {
        return Event::Draw(Shape::Segment(drawn));
    }
    Event::Fault(Fault::EndTooFar.number())
}

fn bitmap_event(handles: &Handles, v: Vertex, memory: u32) -> Event
    requires { memory ≤ most_memory }
    ensures { result ≡ bitmapped (bitmap_at handles.now v memory) }
{
    match handles.bitmap(v, memory) {
        Some(bitmap) => Event::Draw(Shape::Bitmap(bitmap)),
        None => Event::Fault(Fault::Undrawable.number()),
    }
}

impl Machine {
    // What a vertex draws. Its handle and cell are looked at only while BITMAPS is begun.
    #[tactic(auto, unfolding(crate::specs::Vertex::vertexed))]
    pub fn vertex(mut self, handles: &Handles, memory: u32, v: Vertex) -> Stepped
        requires { memory ≤ most_memory }
        ensures { result ≡ vertexed self handles.now memory v }
    {
        let width = self.context.placing.linewidth;
        let event = match self.primitive {
            Some(Primitive::Bitmaps) => bitmap_event(handles, v, memory),
            Some(Primitive::Points) => point_event(v, self.context.placing.pointsize),
            Some(Primitive::Lines) => match self.corner.take() {
                Some(from) => segment_event(from, v, width, LINES),
                None => {
                    self.corner = Some(v.end());
                    Event::Quiet
                }
            },
            Some(Primitive::LineStrip) => match self.corner.replace(v.end()) {
                Some(from) => segment_event(from, v, width, LINE_STRIP),
                None => Event::Quiet,
            },
            Some(Primitive::Rects) => match self.corner.take() {
                Some(corner) => rectangle_event(corner, v, width),
                None => {
                    self.corner = Some(v.end());
                    Event::Quiet
                }
            },
            None => Event::Fault(Fault::NothingBegun.number()),
        };
        Stepped {
            machine: self,
            event,
        }
    }
}
