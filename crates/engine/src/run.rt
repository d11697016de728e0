// A run from one drawing action to the next.
ghost use Rattle.std.specs.Prelude.{◌≡◌};
ghost use Rattle.engine.specs.Advance.{is_kept, found, standing, Advances};
ghost use Rattle.engine.specs.Run.{WithinLimits, clear_of, drawing_of, action_of};

use crate::context::Context;
use crate::fault::Fault;
use crate::handles::Handles;
use crate::kept::{Engine, Kept};
use crate::machine::{Event, Flags, Machine, Shape};
use action::{Action, Clear, Drawing};

// A run that stops before its list has ended: the number of document 01's table, as the event had it, and the place that
// goes with it.
#[derive(Clone, Copy)]
pub struct Stop {
    pub number: u32,
    pub place: u32,
}

// What a run came to next: a drawing action, or its end.
#[derive(Clone, Copy)]
pub enum Find {
    Drew(Action),
    Over(Option<Stop>),
}

// `left` is how many words are still allowed.
#[derive(Clone, Copy)]
pub struct Advanced {
    pub engine: Engine,
    pub left: u32,
    pub find: Find,
}

// The same of an engine that was lent, and so stands where the run does.
#[derive(Clone, Copy)]
pub(crate) struct Reached {
    pub left: u32,
    pub find: Find,
}

fn wide(at: u32) -> usize
    ensures { result ≡ at }
{
    at as usize
}

fn clear(context: Context, flags: Flags) -> Clear
    ensures { result ≡ clear_of context flags }
{
    let values = context.clearing;
    Clear {
        colour: flags.colour,
        stencil: flags.stencil,
        tag: flags.tag,
        values: values,
    }
}

#[tactic(auto, unfolding(crate::specs::Run::drawing_of))]
fn draw(context: Context, shape: Shape) -> Drawing
    ensures { result ≡ drawing_of context shape }
{
    match shape {
        Shape::Clear(flags) => Drawing::Clear(clear(context, flags)),
        Shape::Point(point) => Drawing::Point(point, context.ink()),
        Shape::Rectangle(rectangle) => Drawing::Rectangle(rectangle, context.ink()),
        Shape::Bitmap(bitmap) => Drawing::Bitmap(bitmap, context.ink()),
        Shape::Segment(segment) => Drawing::Segment(segment, context.ink()),
    }
}

#[tactic(auto, unfolding(crate::specs::Run::action_of))]
fn act(context: Context, shape: Shape) -> Action
    ensures { result ≡ action_of context shape }
{
    let masks = context.masks;
    let scissor = context.scissor();
    let drawing = draw(context, shape);
    Action {
        scissor: scissor,
        masks: masks,
        drawing: drawing,
    }
}

// Whether a context is kept that a restore can load.
#[tactic(auto, unfolding(crate::specs::Advance::is_kept))]
fn is_kept(count: usize) -> bool
    ensures { result ≡ is_kept count }
{
    (0 < count) & (count <= 4)
}

impl Engine {
    // A run that is over: at the list's end, or at a fault.
    fn over(&mut self, now: Machine, kept: Kept, left: u32, stop: Option<Stop>) -> Reached
        ensures { standing self.new result ≡ found now kept left (Find.Over stop) }
    {
        *self = Engine { now, kept };
        Reached {
            left,
            find: Find::Over(stop),
        }
    }

    fn drew(&mut self, now: Machine, kept: Kept, left: u32, shape: Shape) -> Reached
        ensures { standing self.new result ≡ found now kept left (Find.Drew (action_of now.context shape)) }
    {
        let find = Find::Drew(act(now.context, shape));
        *self = Engine { now, kept };
        Reached { left, find }
    }

    // Goes on with so many words allowed: to the next action if `halt` is set, else to the list's end or the fault. The
    // machine and the kept contexts are held apart, since few words touch the latter; the four that an engine's methods
    // obey put them together for that. The engine is lent: handed over and back by a `Run`, it would be copied twice more
    // for each action.
    pub(crate) fn advance(
        &mut self,
        handles: &mut Handles,
        list: &[u8],
        memory: u32,
        allowed: u32,
        halt: bool,
    ) -> Reached
        requires { WithinLimits list.now memory }
        ensures { Advances list.now memory allowed halt (record { engine = self.old; handles = handles.old }) (standing self.new result) handles.new }
    {
        let mut now = self.now;
        let mut kept = self.kept;
        let mut left = allowed;
        while 0 < left {
            let at = now.at;
            if list.len() <= wide(at) {
                return self.over(
                    now,
                    kept,
                    left,
                    Some(Stop {
                        number: Fault::PastTheEnd.number(),
                        place: at,
                    }),
                );
            }
            left = left - 1;
            let bits = runs::word_at(list, at);
            now.at = at + 4;
            let stepped = now.step(handles, memory, bits);
            let next = stepped.machine;
            let event = stepped.event;
            now = next;
            match event {
                Event::Quiet => {}
                Event::Save => {
                    let engine = Engine {
                        now: now,
                        kept: kept,
                    };
                    let next = engine.push();
                    now = next.now;
                    kept = next.kept;
                }
                Event::Restore => {
                    let count = kept.count;
                    let newest = if is_kept(count) {
                        let last = count - 1;
                        kept.contexts[last]
                    } else {
                        Context::start()
                    };
                    let engine = Engine {
                        now: now,
                        kept: kept,
                    };
                    let next = engine.pop(newest);
                    now = next.now;
                    kept = next.kept;
                }
                Event::Call(to) => {
                    let engine = Engine {
                        now: now,
                        kept: kept,
                    };
                    let next = engine.call(to);
                    now = next.now;
                    kept = next.kept;
                }
                Event::Return => {
                    let engine = Engine {
                        now: now,
                        kept: kept,
                    };
                    let next = engine.back();
                    now = next.now;
                    kept = next.kept;
                }
                Event::Draw(shape) => {
                    if halt {
                        return self.drew(now, kept, left, shape);
                    }
                }
                Event::Ended => {
                    return self.over(now, kept, left, None);
                }
                Event::Fault(number) => {
                    return self.over(now, kept, left, Some(Stop { number, place: at }));
                }
            }
        }
        let at = now.at;
        self.over(
            now,
            kept,
            left,
            Some(Stop {
                number: Fault::LimitReached.number(),
                place: at,
            }),
        )
    }
}

// Goes on from an engine by value, and hands back the one that the run has come to.
pub fn advance(
    from: Engine,
    handles: &mut Handles,
    list: &[u8],
    memory: u32,
    allowed: u32,
    halt: bool,
) -> Advanced
    requires { WithinLimits list.now memory }
    ensures { Advances list.now memory allowed halt (record { engine = from; handles = handles.old }) result handles.new }
{
    let mut engine = from;
    let Reached { left, find } = engine.advance(handles, list, memory, allowed, halt);
    Advanced { engine, left, find }
}
