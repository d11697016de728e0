// The machine: the current context, the open calls, the primitive, the open corner or end and the place; and one word read and
// obeyed.
ghost use Rattle.std.specs.Prelude.{◌≡◌, ◌≤◌};
ghost use Rattle.engine.specs.Run.{most_memory};
ghost use Rattle.engine.specs.Machine.{started, steps};

use crate::command::{Obeyed, Then};
use crate::context::Context;
use crate::drawn::Primitive;
use crate::handles::Handles;
use action::{Bitmap, End, Point, Rectangle, Segment};

// `calls` holds the return addresses, newest first, and `depth` how many are open. `primitive` is the one that is begun,
// and `corner` a rectangle's first corner or a line's first end that waits for the second one.
#[derive(Clone, Copy)]
pub struct Machine {
    pub context: Context,
    pub calls: [u32; 4],
    pub depth: u32,
    pub primitive: Option<Primitive>,
    pub at: u32,
    pub corner: Option<End>,
}

// Which of colour, stencil and tag CLEAR clears.
#[derive(Clone, Copy)]
pub struct Flags {
    pub colour: u32,
    pub stencil: u32,
    pub tag: u32,
}

// What is drawn; the rest of an action's values are the context's.
#[derive(Clone, Copy)]
pub enum Shape {
    Clear(Flags),
    Point(Point),
    Rectangle(Rectangle),
    Bitmap(Bitmap),
    Segment(Segment),
}

// What a word came to: nothing to tell, a context to save or to restore, a call to take or to return from, an action, the
// list's end, or a fault by its number. (With a `Fault` in it, an event no longer stays in registers: a word costs five times
// as many instructions.)
#[derive(Clone, Copy)]
pub enum Event {
    Quiet,
    Save,
    Restore,
    Call(u32),
    Return,
    Draw(Shape),
    Ended,
    Fault(u32),
}

#[derive(Clone, Copy)]
pub struct Stepped {
    pub machine: Machine,
    pub event: Event,
}

impl Machine {
    pub fn start() -> Machine
        ensures { result ≡ started }
    {
        Machine {
            context: Context::start(),
            calls: [0; 4],
            depth: 0,
            primitive: None,
            at: 0,
            corner: None,
        }
    }

    // A word read and obeyed.
    #[tactic(auto, unfolding(crate::specs::Machine::steps))]
    pub fn step(self, handles: &mut Handles, memory: u32, bits: u32) -> Stepped
        requires { memory ≤ most_memory }
        ensures { (result ≡ (steps self handles.old memory bits).stepped) × (handles.new ≡ (steps self handles.old memory bits).handles) }
    {
        match words::read_word(bits) {
            Ok(word) => {
                let Obeyed { machine, then } = self.obey(handles, word);
                match then {
                    Then::Tell(event) => Stepped { machine, event },
                    Then::Place(v) => machine.vertex(handles, memory, v),
                }
            }
            Err(fault) => Stepped {
                machine: self,
                event: Event::Fault(fault.number()),
            },
        }
    }
}
