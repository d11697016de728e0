// One row in work, and one action drawn into it. `draw` shows the order: whether the action does the same to every pixel
// that it covers; which columns it reaches, unless it does nothing; and, where pixels differ, these one by one.
ghost use Rattle.std.specs.Prelude.{ℕ, ◌≡◌, ◌<◌, ◌≤◌, ◌*◌, length};
ghost use Rattle.pixel.specs.Plain.{filled};
ghost use Rattle.shape.specs.Cover.{between, outline_of, reaches};
ghost use Rattle.shape.specs.OneRow.{InFrame, has_column};
ghost use Rattle.units.specs.Units.{pixel_at, widest};
ghost use Rattle.paint.specs.Picture.{colours_of, tags_of};
ghost use Rattle.paint.specs.Runs.{Blank, BlankUpTo, Does, Drawn, PlainDrawing, Swept, Touched, inked, pixels, texel_in};

use action::{Action, Bitmap, Colour, Drawing, Ink, Masks};
use pixel::{Fill, Pixel, Plain};
use shape::{Chord, reach};
use units::{Pixels, WIDEST};

const COLUMNS: usize = WIDEST as usize;

// How many pixels are written one by one: so few are written faster than copied.
const FEW: usize = 16;

// Red, green and blue of each pixel, and its tag, alpha and stencil.
#[derive(Drop)]
pub struct Row {
    pub colours: [u8; 3 * COLUMNS],
    pub tags: [u8; COLUMNS],
    pub alpha: [u8; COLUMNS],
    pub stencil: [u8; COLUMNS],
}

// A bitmap's texels differ, so that nothing is told of it.
#[tactic(auto, unfolding(crate::specs::Picture::changed))]
fn plainly(drawing: Drawing, masks: Masks) -> Plain
    ensures { PlainDrawing masks drawing result }
{
    match drawing {
        Drawing::Clear(clear) => pixel::plain_clear(clear, masks),
        Drawing::Point(_, ink) | Drawing::Rectangle(_, ink) | Drawing::Segment(_, ink) =>
            pixel::plain_ink(ink, masks),
        Drawing::Bitmap(_, _) => Plain::Each,
    }
}

// White where no bitmap is drawn.
#[tactic(auto, unfolding(crate::specs::Runs::texel_in))]
fn texel_at(bitmap: Option<Bitmap>, p: Pixels, q: Pixels, memory: &[u8]) -> Colour
    ensures { result ≡ texel_in bitmap memory.now p q }
{
    match bitmap {
        None => pixel::white(),
        Some(bitmap) => {
            let area = bitmap.area;
            let column = p.0.saturating_sub(area.left.0);
            let line = q.0.saturating_sub(area.top.0);
            texel::texel(bitmap, column, line, memory)
        }
    }
}

// The columns of a frame of this width that the chord holds, from the one on and before the other. They lie together:
// those that are not held are passed over from both ends, and none in between needs to be asked about. A flat chord, such
// as a CLEAR's, holds them all.
fn columns(chord: Chord, width: u32) -> (usize, usize)
    requires { width ≤ widest }
    ensures exact { (k : ℕ) → k < width → has_column chord (pixel_at k) ≡ between result.0 result.1 k }
    ensures bounds { (result.0 ≤ result.1) × (result.1 ≤ widest) }
{
    let mut from = chord.left.before(width);
    let mut to = from.max(chord.right.before(width));
    if chord.is_flat() {
        return (from as usize, to as usize);
    }
    while from < to && !chord.holds(Pixels::of(from)) {
        from += 1;
    }
    while from < to && !chord.holds(Pixels::of(to - 1)) {
        to -= 1;
    }
    (from as usize, to as usize)
}

// The columns of row q that the action reaches in a frame of this width.
fn reached(action: Action, q: Pixels, width: u32) -> (usize, usize)
    requires { InFrame width q }
    ensures exact { (k : ℕ) → k < width → reaches (outline_of action.drawing) action.scissor (pixel_at k) q ≡ between result.0 result.1 k }
    ensures bounds { (result.0 ≤ result.1) × (result.1 ≤ widest) }
{
    columns(
        reach::outline(action.drawing).reach(action.scissor, width, q),
        width,
    )
}

impl Row {
    pub fn blank() -> Row
        ensures { Blank result }
    {
        Row {
            colours: [0; 3 * COLUMNS],
            tags: [0; COLUMNS],
            alpha: [0; COLUMNS],
            stencil: [0; COLUMNS],
        }
    }

    // Begins another row: its first pixels, as many as a frame of this width has, are zeros. What lies behind them stays,
    // so that a narrow frame's row costs what it has.
    pub fn restart(&mut self, width: usize)
        requires { width ≤ widest }
        ensures { BlankUpTo width self.new }
    {
        self.colours[..3 * width].fill(0);
        self.tags[..width].fill(0);
        self.alpha[..width].fill(0);
        self.stencil[..width].fill(0);
    }

    #[tactic(auto, unfolding(crate::specs::Runs::pixel_in))]
    fn pixel(&self, x: usize) -> Pixel
        requires { x < widest }
        ensures { result ≡ pixels self.now x }
    {
        let i = 3 * x;
        Pixel {
            red: self.colours[i],
            green: self.colours[i + 1],
            blue: self.colours[i + 2],
            alpha: self.alpha[x],
            stencil: self.stencil[x],
            tag: self.tags[x],
        }
    }

    fn set(&mut self, x: usize, pixel: Pixel)
        requires { x < widest }
        ensures { Touched x (λ _. pixel) (pixels self.old) (pixels self.new) }
    {
        let i = 3 * x;
        self.stencil[x] = pixel.stencil;
        self.colours[i] = pixel.red;
        self.colours[i + 1] = pixel.green;
        self.colours[i + 2] = pixel.blue;
        self.alpha[x] = pixel.alpha;
        self.tags[x] = pixel.tag;
    }

    // Does the step to each of the columns.
    fn sweep<F: Fn(Pixels, Pixel) -> Pixel>(&mut self, from: usize, to: usize, step: F)
        requires { ((from ≤ to) × (to ≤ widest)) × F.IsAlwaysCallable step }
        ensures { (does : _) → Does (F.post step) does → Swept from to does (pixels self.old) (pixels self.new) }
    {
        for x in from..to {
            let before = self.pixel(x);
            self.set(x, step(Pixels::of(x as u32), before));
        }
    }

    // One call of `paint` for all drawings with an ink, so that the compiler puts it into the loop.
    fn ink(
        &mut self,
        from: usize,
        to: usize,
        ink: Ink,
        masks: Masks,
        bitmap: Option<Bitmap>,
        q: Pixels,
        memory: &[u8],
    )
        requires { (from ≤ to) × (to ≤ widest) }
        ensures { Swept from to (inked memory.now ink masks bitmap q) (pixels self.old) (pixels self.new) }
    {
        self.sweep(from, to, |p, before| {
            pixel::paint(ink, masks, texel_at(bitmap, p, q, memory), before)
        });
    }

    // Fills the columns; their stencil stays. The first colours are written one by one, the others copied from those.
    fn fill(&mut self, from: usize, to: usize, with: Fill)
        requires { (from ≤ to) × (to ≤ widest) }
        ensures { Swept from to (λ _. filled with) (pixels self.old) (pixels self.new) }
    {
        let mut done = to.min(from + FEW);
        for x in from..done {
            self.colours[3 * x] = with.red;
            self.colours[3 * x + 1] = with.green;
            self.colours[3 * x + 2] = with.blue;
        }
        while done < to {
            let more = (done - from).min(to - done);
            self.colours
                .copy_within(3 * from..3 * (from + more), 3 * done);
            done += more;
        }
        self.tags[from..to].fill(with.tag);
        self.alpha[from..to].fill(with.alpha);
    }

    fn wipe(&mut self, from: usize, to: usize, with: Pixel)
        requires { (from ≤ to) × (to ≤ widest) }
        ensures { Swept from to (λ _ _. with) (pixels self.old) (pixels self.new) }
    {
        self.stencil[from..to].fill(with.stencil);
        self.fill(
            from,
            to,
            Fill {
                red: with.red,
                green: with.green,
                blue: with.blue,
                alpha: with.alpha,
                tag: with.tag,
            },
        );
    }

    // Draws the action into the row, which is row q of a frame of this width.
    pub fn draw(&mut self, action: Action, q: Pixels, memory: &[u8], width: u32)
        requires { InFrame width q }
        ensures { Drawn memory.now action width q (pixels self.old) (pixels self.new) }
    {
        let drawing = action.drawing;
        let masks = action.masks;
        match plainly(drawing, masks) {
            Plain::Nothing => {}
            Plain::Fill(with) => {
                let (from, to) = reached(action, q, width);
                self.fill(from, to, with);
            }
            Plain::Wipe(with) => {
                let (from, to) = reached(action, q, width);
                self.wipe(from, to, with);
            }
            Plain::Each => {
                let (from, to) = reached(action, q, width);
                match drawing {
                    Drawing::Clear(clear) => self.sweep(
                        from,
                        to,
                        |_, before| pixel::clear(clear, masks, before),
                    ),
                    Drawing::Point(_, ink)
                    | Drawing::Rectangle(_, ink)
                    | Drawing::Segment(_, ink) => self.ink(from, to, ink, masks, None, q, memory),
                    Drawing::Bitmap(bitmap, ink) => self.ink(
                        from,
                        to,
                        ink,
                        masks,
                        Some(bitmap),
                        q,
                        memory,
                    ),
                }
            }
        }
    }

    // Lays the row's first pixels into its part of a frame, as many as that has.
    pub fn lay(&self, picture: &mut [u8], tags: &mut [u8])
        requires { (length tags.old ≤ widest) × (length picture.old ≡ 3 * length tags.old) }
        ensures picture_after { picture.new ≡ colours_of (pixels self.now) (length tags.old) }
        ensures tags_after { tags.new ≡ tags_of (pixels self.now) (length tags.old) }
    {
        picture.copy_from_slice(&self.colours[..picture.len()]);
        tags.copy_from_slice(&self.tags[..tags.len()]);
    }
}
