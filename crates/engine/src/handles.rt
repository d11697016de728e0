// The settings of the 32 bitmap handles, and which bitmap a vertex draws.
ghost use Rattle.std.specs.Prelude.{◌≡◌, ◌+◌, ◌*◌, ◌%◌, ◌≤◌, ◌<◌, ◌^◌, IfSome};
ghost use Rattle.engine.specs.Run.{most_memory};
ghost use Rattle.engine.specs.Handles.{all_unset, sourced, laid_out, sized, laid_out_high, sized_high, joined, handle_at, cover_of, aligned, judged, bitmap_at, Narrow};

use crate::vertex::Vertex;
use action::{Area, Bitmap, Format};
use units::{LengthInPixels, Pixels};

// What BITMAP_LAYOUT gave.
#[derive(Clone, Copy)]
pub struct Layout {
    pub format: u32,
    pub stride: u32,
    pub height: u32,
}

// The high bits of the stride and of the layout's height, which BITMAP_LAYOUT_H gave.
#[derive(Clone, Copy)]
pub struct LayoutHigh {
    pub stride: u32,
    pub height: u32,
}

// A drawn width and height, or their high bits.
#[derive(Clone, Copy)]
pub struct Size {
    pub width: u32,
    pub height: u32,
}

// What the words of one handle gave. Main word and H word keep their bits apart, since they come in any order; the high
// bits are 0 until their word gives them.
#[derive(Clone, Copy)]
pub struct Settings {
    pub source: Option<u32>,
    pub layout: Option<Layout>,
    pub size: Option<Size>,
    pub layout_high: LayoutHigh,
    pub size_high: Size,
}

// The settings of the 32 handles. The field is public, so that whoever calls `advance` can start with any settings and
// read them afterwards.
#[derive(Clone, Copy)]
pub struct Handles(pub [Settings; 32]);

// What the words of one handle come to, main words and H words together.
#[derive(Clone, Copy)]
pub struct Handle {
    pub source: u32,
    pub format: u32,
    pub stride: u64,
    pub rows: u64,
    pub width: LengthInPixels,
    pub height: LengthInPixels,
}

// A handle's number has five bits.
fn place(handle: u32) -> usize
    ensures value { result ≡ handle % 32 }
    ensures inside { result < 32 }
{
    (handle % 32) as usize
}

// A number's low bits, and its high bits, which count so many times as much.
fn joined(low: u32, high: u32, power: u32) -> u64
    requires { power ≤ 1024 }
    ensures value { result ≡ joined low high power }
    ensures upper_bound { result < 2 ^ 43 }
{
    u64::from(low) + u64::from(power) * u64::from(high)
}

impl Handles {
    // All handles unset, as a run starts.
    pub fn new() -> Handles
        ensures { result ≡ all_unset }
    {
        Handles([Settings {
            source: None,
            layout: None,
            size: None,
            layout_high: LayoutHigh {
                stride: 0,
                height: 0,
            },
            size_high: Size {
                width: 0,
                height: 0,
            },
        }; 32])
    }

    #[tactic(auto, unfolding(crate::specs::Handles::sourced))]
    pub(crate) fn put_source(&mut self, handle: u32, address: u32)
        ensures { self.new ≡ sourced self.old handle address }
    {
        self.0[place(handle)].source = Some(address);
    }

    #[tactic(auto, unfolding(crate::specs::Handles::laid_out))]
    pub(crate) fn put_layout(&mut self, handle: u32, layout: Layout)
        ensures { self.new ≡ laid_out self.old handle layout }
    {
        self.0[place(handle)].layout = Some(layout);
    }

    #[tactic(auto, unfolding(crate::specs::Handles::sized))]
    pub(crate) fn put_size(&mut self, handle: u32, size: Size)
        ensures { self.new ≡ sized self.old handle size }
    {
        self.0[place(handle)].size = Some(size);
    }

    #[tactic(auto, unfolding(crate::specs::Handles::laid_out_high))]
    pub(crate) fn put_layout_high(&mut self, handle: u32, high: LayoutHigh)
        ensures { self.new ≡ laid_out_high self.old handle high }
    {
        self.0[place(handle)].layout_high = high;
    }

    #[tactic(auto, unfolding(crate::specs::Handles::sized_high))]
    pub(crate) fn put_size_high(&mut self, handle: u32, high: Size)
        ensures { self.new ≡ sized_high self.old handle high }
    {
        self.0[place(handle)].size_high = high;
    }

    // The handle, if its three main words were given.
    #[tactic(auto, unfolding(crate::specs::Handles::handle_at))]
    fn at(&self, handle: u32) -> Option<Handle>
        ensures value { result ≡ handle_at self.now handle }
        ensures narrow { IfSome result Narrow }
    {
        let settings = self.0[place(handle)];
        let source = settings.source?;
        let layout = settings.layout?;
        let size = settings.size?;
        Some(Handle {
            source,
            format: layout.format,
            stride: joined(layout.stride, settings.layout_high.stride, 1024),
            rows: joined(layout.height, settings.layout_high.height, 512),
            width: LengthInPixels(joined(size.width, settings.size_high.width, 512)),
            height: LengthInPixels(joined(size.height, settings.size_high.height, 512)),
        })
    }

    // The bitmap that the vertex draws, or none for number 18.
    #[tactic(auto, unfolding(crate::specs::Handles::bitmap_at))]
    pub(crate) fn bitmap(&self, v: Vertex, memory: u32) -> Option<Bitmap>
        requires { memory ≤ most_memory }
        ensures { result ≡ bitmap_at self.now v memory }
    {
        self.at(v.handle)?.judge(v, memory)
    }
}

// The pixels from a top left one on, so many wide and high.
#[tactic(auto, unfolding(crate::specs::Handles::cover_of))]
pub fn cover(left: Pixels, top: Pixels, width: LengthInPixels, height: LengthInPixels) -> Area
    requires { ((left.0 < 2 ^ 63) × (top.0 < 2 ^ 63)) × ((width.0 < 2 ^ 63) × (height.0 < 2 ^ 63)) }
    ensures { result ≡ cover_of left top width height }
{
    Area {
        left,
        top,
        right: left.on(width),
        bottom: top.on(height),
    }
}

impl Handle {
    // L8 is format 3; each other format that is drawn has two bytes.
    fn is_aligned(self) -> bool
        ensures { result ≡ aligned self }
    {
        self.format == 3 || (self.source % 2 == 0 && self.stride % 2 == 0)
    }

    // The bitmap that the vertex draws, or none for number 18. A stride, a height or a cell larger than RAM_G is refused
    // before it is multiplied, so that no product is too large for its type.
    #[tactic(auto, unfolding(crate::specs::Handles::bitmap_of))]
    fn judge(self, v: Vertex, memory: u32) -> Option<Bitmap>
        requires { Narrow self × (memory ≤ most_memory) }
        ensures { result ≡ judged self v memory }
    {
        let room = u64::from(memory);
        if self.stride == 0 || self.rows == 0 || self.width.0 == 0 || self.height.0 == 0 {
            return None;
        }
        if room < self.stride || room < self.rows {
            return None;
        }
        let size = self.stride * self.rows;
        if room < size {
            return None;
        }
        let start = u64::from(self.source) + u64::from(v.cell) * size;
        if room < start + size {
            return None;
        }
        if !self.is_aligned() {
            return None;
        }
        Some(Bitmap {
            area: cover(v.x.floor(), v.y.floor(), self.width, self.height),
            start: start as u32,
            format: Format::from(self.format),
            stride: self.stride as u32,
            height: self.rows as u32,
        })
    }
}
