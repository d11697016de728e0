// The drawing actions of a list, kept as numbers: a list is run once, and a row reads the actions that can reach it.
ghost use Rattle.std.specs.Prelude.{None, ◌≡◌, ◌<◌};
ghost use Rattle.engine.specs.Running.{actions_in};
ghost use Rattle.paint.specs.Actions.{Gathers, Keeps, most_kept};

use action::Action;
use engine::Screen;
use shape::{Rows, reach};

pub const MOST: usize = 1024;

// The first actions of a list, each with the rows that it can reach. `count` is how many the list has, None where they
// are as many as there is room for, or more. Numbers and places are two arrays, as `put` and `get` of crates/store take them.
#[derive(Drop)]
pub struct Kept {
    pub numbers: [u32; store::NUMBERS * MOST],
    pub places: [u64; store::PLACES * MOST],
    pub bands: [Rows<u32>; MOST],
    pub count: Option<usize>,
}

impl Kept {
    pub fn none() -> Kept
        ensures { result.count ≡ None }
    {
        Kept {
            numbers: [0; store::NUMBERS * MOST],
            places: [0; store::PLACES * MOST],
            bands: [Rows { top: 0, bottom: 0 }; MOST],
            count: None,
        }
    }

    // Keeps an action as the k-th.
    fn keep(&mut self, action: Action, k: usize)
        requires { k < most_kept }
        ensures { Keeps action k self.old self.new }
    {
        self.bands[k] = reach::rows_of(action);
        store::put(action, k, &mut self.numbers, &mut self.places);
    }

    // Runs the screen's list from its start and keeps its actions, as many as there is room for. Never inlined: the room
    // that the run takes of the stack is given back before rows are painted.
    #[inline(never)]
    pub fn gather(&mut self, screen: &Screen)
        ensures { Gathers (actions_in screen.now) self.new }
    {
        let mut run = screen.run();
        for k in 0..MOST {
            let Some(action) = run.next() else {
                self.count = Some(k);
                return;
            };
            self.keep(action, k);
        }
        self.count = None;
    }
}
