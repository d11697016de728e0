// A screen's list run: to its end or fault at once, or from one drawing action to the next.
ghost use Rattle.std.specs.Prelude.{◌≡◌};
ghost use Rattle.engine.specs.Run.{WithinLimits, ending_of, number_told, place_told, run_of};
ghost use Rattle.engine.specs.Running.{actions_in, actions_left, run_in};
ghost use Rattle.std.specs.Iterator.{YieldsFirst, item_count};

use crate::handles::Handles;
use crate::kept::Engine;
use crate::run::{Find, Stop, advance};
use crate::screen::Screen;
use action::Action;

// How a run ends, and how many words it fetched.
#[derive(Clone, Copy)]
pub struct Ending {
    pub stop: Option<Stop>,
    pub count: u32,
}

impl Ending {
    // The number of document 01's table.
    pub fn number(self) -> u32
        ensures { result ≡ number_told self.stop }
    {
        self.stop.map_or(0, |stop| stop.number)
    }

    // The place that goes with the number.
    pub fn place(self) -> u32
        ensures { result ≡ place_told self.stop }
    {
        self.stop.map_or(0, |stop| stop.place)
    }
}

// Runs a list from its start to its end or fault, where RAM_G has so many bytes. Never inlined: the room that a run takes
// of the stack is given back to who paints next.
#[inline(never)]
pub fn finish(list: &[u8], memory: u32, limit: u32) -> Ending
    requires { WithinLimits list.now memory }
    ensures { result ≡ ending_of (run_of list.now memory limit) }
{
    let mut handles = Handles::new();
    let advanced = advance(Engine::start(), &mut handles, list, memory, limit, false);
    match advanced.find {
        // Actions are not asked for, so that none is found.
        Find::Drew(_) => Ending {
            stop: None,
            count: 0,
        },
        Find::Over(stop) => Ending {
            stop,
            count: limit - advanced.left,
        },
    }
}

// A run that is asked for one drawing action after the other. `left` is how many words are still allowed.
#[derive(Drop)]
pub struct Run<'a> {
    pub screen: Screen<'a>,
    pub engine: Engine,
    pub handles: Handles,
    pub left: u32,
}

impl<'a> Screen<'a> {
    // A run of the list, before its first word.
    pub fn run(&self) -> Run<'a>
        ensures { actions_left result ≡ actions_in self.now }
    {
        Run {
            screen: *self,
            engine: Engine::start(),
            handles: Handles::new(),
            left: self.limit,
        }
    }

    // Runs the list from its start to its end or fault.
    pub fn finish(&self) -> Ending
        ensures { result ≡ ending_of (run_in self.now) }
    {
        finish(self.list, self.memory.len() as u32, self.limit)
    }
}

// Over the drawing actions of a list, in order.
impl<'a> Iterator for Run<'a> {
    type Item = Action;

    ghost next_gives = { YieldsFirst actions_left };

    ghost remaining = { item_count actions_left };

    fn next(&mut self) -> Option<Action> {
        let memory = self.screen.memory.len() as u32;
        let advanced = self.engine.advance(
            &mut self.handles,
            self.screen.list,
            memory,
            self.left,
            true,
        );
        self.left = advanced.left;
        match advanced.find {
            Find::Drew(action) => Some(action),
            Find::Over(_) => {
                self.left = 0;
                None
            }
        }
    }
}
