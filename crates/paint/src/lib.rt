// Rows of the picture that a list draws. The list is run once; then each row is drawn by itself, from 0, out of the
// actions that reach it.
#![tactic(auto)]

ghost use Rattle.std.specs.Prelude.{true, false, ℕ, ◌≡◌, ◌<◌, ◌≤◌, ◌+◌, ◌*◌, length};
ghost use Rattle.std.specs.Option.{option_copied};
ghost use Rattle.engine.specs.Running.{actions_in};
ghost use Rattle.units.specs.Units.{pixel_at, tallest};
ghost use Rattle.paint.specs.Actions.{KeepsAll};
ghost use Rattle.paint.specs.Picture.{colours_from, tags_from, patched, row_colours, row_tags};
ghost use Rattle.paint.specs.Runs.{DrawnAll, HoldRows, Paints, Ready, pixels};

mod kept;
mod row;

use engine::Screen;
use kept::Kept;
use row::Row;
use units::Pixels;

// A list that is painted on frames of one width, and its actions where they are kept.
#[derive(Drop)]
struct Painter<'a, 'k> {
    screen: &'a Screen<'a>,
    width: u32,
    kept: Option<&'k Kept>,
    ghost ready: { Ready (actions_in screen.now) width (option_copied kept) },
}

impl<'a, 'k> Painter<'a, 'k> {
    // Draws the kept actions, which are all, into row y, each that can reach it.
    fn draw_kept(&self, kept: &Kept, count: usize, y: u32, row: &mut Row)
        requires all { KeepsAll (actions_in self.now.screen.now) kept.now count }
        requires y_lt_tallest { y < tallest }
        ensures { DrawnAll
            self.now.screen.now.memory.now
            (actions_in self.now.screen.now)
            self.now.width
            (pixel_at y)
            (pixels row.old)
            (pixels row.new) }
    {
        for k in 0..count {
            // Read where it lies: to copy both numbers costs more than to pass over the action.
            let band = &kept.bands[k];
            if (band.top <= y) & (y < band.bottom) {
                let action = store::get(k, &kept.numbers, &kept.places);
                row.draw(action, Pixels::of(y), self.screen.memory, self.width);
            }
        }
    }

    // Runs the list anew and draws each of its actions into row y. Never inlined: a run takes room of the stack.
    #[inline(never)]
    fn draw_list(&self, y: u32, row: &mut Row)
        requires { y < tallest }
        ensures { DrawnAll
            self.now.screen.now.memory.now
            (actions_in self.now.screen.now)
            self.now.width
            (pixel_at y)
            (pixels row.old)
            (pixels row.new) }
    {
        for action in self.screen.run() {
            row.draw(action, Pixels::of(y), self.screen.memory, self.width);
        }
    }

    // Draws all actions of the list into row y. No painter is made with kept actions that are not all.
    fn draw(&self, y: u32, row: &mut Row)
        requires { y < tallest }
        ensures { DrawnAll
            self.now.screen.now.memory.now
            (actions_in self.now.screen.now)
            self.now.width
            (pixel_at y)
            (pixels row.old)
            (pixels row.new) }
    {
        if let Some(kept) = self.kept {
            if let Some(count) = kept.count {
                self.draw_kept(kept, count, y, row);
                return;
            }
        }
        self.draw_list(y, row);
    }

    // Row y, from 0: nothing of what was lent is left, nor of what was in work before.
    fn paint_row(&self, y: u32, row: &mut Row, picture: &mut [u8], tags: &mut [u8])
        requires { (y < tallest)
            × ((length picture.old ≡ 3 * self.now.width) × (length tags.old ≡ self.now.width)) }
        ensures picture_after { picture.new ≡ row_colours
            self.now.screen.now.memory.now
            (actions_in self.now.screen.now)
            self.now.width
            y }
        ensures tags_after { tags.new ≡ row_tags
            self.now.screen.now.memory.now
            (actions_in self.now.screen.now)
            self.now.width
            y }
    {
        row.restart(self.width as usize);
        self.draw(y, row);
        row.lay(picture, tags);
    }

    // Paints of so many rows, from `first` on, those that are wanted, each into its part of the runs, and leaves every
    // other row. Never inlined: a row in work takes room of the stack.
    #[inline(never)]
    fn paint<W: Fn(usize) -> bool>(
        &self,
        first: u32,
        count: usize,
        is_wanted: &W,
        picture: &mut [u8],
        tags: &mut [u8],
    )
        requires count_bound { (first + count ≤ tallest) × HoldRows self.now.width count picture.old tags.old }
        requires callable { (y : ℕ) → y < count → W.pre is_wanted.now y }
        ensures { Paints
            (W.post is_wanted.now)
            self.now.screen.now.memory.now
            (actions_in self.now.screen.now)
            self.now.width
            first
            count
            picture.old
            tags.old
            picture.new
            tags.new }
    {
        let wide = self.width as usize;
        let mut row = Row::blank();
        for y in 0..count {
            if is_wanted(y) {
                let a = y * (3 * wide);
                let b = y * wide;
                self.paint_row(
                    first + y as u32,
                    &mut row,
                    &mut picture[a..a + 3 * wide],
                    &mut tags[b..b + wide],
                );
            }
        }
    }
}

// Paints the rows that are wanted out of the kept actions, and tells so; where there is no room for all actions, paints
// nothing. Never inlined: the room that the actions take of the stack is given back.
#[inline(never)]
fn paint_kept<W: Fn(usize) -> bool>(
    screen: &Screen,
    width: u32,
    first: u32,
    count: usize,
    is_wanted: &W,
    picture: &mut [u8],
    tags: &mut [u8],
) -> bool
    requires count_bound { (first + count ≤ tallest) × HoldRows width count picture.old tags.old }
    requires callable { (y : ℕ) → y < count → W.pre is_wanted.now y }
    ensures painted { result ≡ true → Paints
        (W.post is_wanted.now)
        screen.now.memory.now
        (actions_in screen.now)
        width
        first
        count
        picture.old
        tags.old
        picture.new
        tags.new }
    ensures left { result ≡ false → (picture.new ≡ picture.old) × (tags.new ≡ tags.old) }
{
    let mut kept = Kept::none();
    kept.gather(screen);
    if kept.count.is_none() {
        return false;
    }
    let painter = Painter {
        screen,
        width,
        kept: Some(&kept),
    };
    painter.paint(first, count, is_wanted, picture, tags);
    true
}

// The same of a list: out of its kept actions, or, where there are too many, by a run of the list for each row.
fn paint_wanted<W: Fn(usize) -> bool>(
    screen: &Screen,
    width: u32,
    first: u32,
    count: usize,
    is_wanted: W,
    picture: &mut [u8],
    tags: &mut [u8],
)
    requires count_bound { (first + count ≤ tallest) × HoldRows width count picture.old tags.old }
    requires callable { (y : ℕ) → y < count → W.pre is_wanted y }
    ensures { Paints
        (W.post is_wanted)
        screen.now.memory.now
        (actions_in screen.now)
        width
        first
        count
        picture.old
        tags.old
        picture.new
        tags.new }
{
    if !paint_kept(screen, width, first, count, &is_wanted, picture, tags) {
        let painter = Painter {
            screen,
            width,
            kept: None,
        };
        painter.paint(first, count, &is_wanted, picture, tags);
    }
}

// Paints so many rows of the frame, from `first` on, each into its part of the runs.
pub fn paint_rows(
    screen: &Screen,
    width: u32,
    first: u32,
    count: u32,
    picture: &mut [u8],
    tags: &mut [u8],
)
    requires count_bound { (first + count ≤ tallest) × HoldRows width count picture.old tags.old }
    ensures picture_after { picture.new ≡ colours_from screen.now.memory.now (actions_in screen.now) width first count }
    ensures tags_after { tags.new ≡ tags_from screen.now.memory.now (actions_in screen.now) width first count }
{
    paint_wanted(
        screen,
        width,
        first,
        count as usize,
        |_| true,
        picture,
        tags,
    );
}

// Paints the rows that are marked, each into its part of the runs, and leaves every other row.
pub fn paint_marked(screen: &Screen, width: u32, marks: &[u8], picture: &mut [u8], tags: &mut [u8])
    requires marks_len_bound { (length marks.now ≤ tallest) × HoldRows width (length marks.now) picture.old tags.old }
    ensures picture_after { picture.new ≡ patched marks.now
        (row_colours screen.now.memory.now (actions_in screen.now) width)
        (3 * width)
        picture.old }
    ensures tags_after { tags.new ≡ patched marks.now
        (row_tags screen.now.memory.now (actions_in screen.now) width)
        width
        tags.old }
{
    paint_wanted(
        screen,
        width,
        0,
        marks.len(),
        |y| marks[y] == 1,
        picture,
        tags,
    );
}
