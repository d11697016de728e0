// The engine: the machine and the contexts that it keeps, oldest first.
ghost use Rattle.std.specs.Prelude.{◌≡◌, ◌<◌};
ghost use Rattle.engine.specs.Kept.{kept_with, newest, begun, pushed, popped, called, returned};

use crate::context::Context;
use crate::machine::Machine;

// At most four contexts, the first `count` of them kept. An array beside its length, since the engine goes by value: an index
// that is not constant copies all four.
#[derive(Clone, Copy)]
pub struct Kept {
    pub contexts: [Context; 4],
    pub count: usize,
}

#[derive(Clone, Copy)]
pub struct Engine {
    pub now: Machine,
    pub kept: Kept,
}

impl Kept {
    // One context more; a fifth drops the earliest. Each place is written by its own number, so that the others stay where they are.
    #[tactic(auto, unfolding(crate::specs::Kept::kept_with))]
    pub fn push(mut self, context: Context) -> Kept
        ensures { result ≡ kept_with self context }
    {
        let count = self.count;
        match count {
            0 => {
                self.contexts[0] = context;
                self.count = 1;
            }
            1 => {
                self.contexts[1] = context;
                self.count = 2;
            }
            2 => {
                self.contexts[2] = context;
                self.count = 3;
            }
            3 => {
                self.contexts[3] = context;
                self.count = 4;
            }
            _ => {
                let second = self.contexts[1];
                let third = self.contexts[2];
                let fourth = self.contexts[3];
                self.contexts[0] = second;
                self.contexts[1] = third;
                self.contexts[2] = fourth;
                self.contexts[3] = context;
            }
        }
        self
    }
}

impl Engine {
    pub fn start() -> Engine
        ensures { result ≡ begun }
    {
        let context = Context::start();
        let contexts = [context; 4];
        let kept = Kept {
            contexts: contexts,
            count: 0,
        };
        let now = Machine::start();
        Engine {
            now: now,
            kept: kept,
        }
    }

    // SAVE_CONTEXT.
    #[tactic(auto, unfolding(crate::specs::Kept::pushed))]
    pub fn push(mut self) -> Engine
        ensures { result ≡ pushed self }
    {
        let context = self.now.context;
        let kept = self.kept;
        let more = kept.push(context);
        self.kept = more;
        self
    }

    // RESTORE_CONTEXT. The context that it loads is handed over, since looking it up in here would copy all that are kept.
    #[tactic(auto, unfolding(crate::specs::Kept::popped, crate::specs::Kept::dropped))]
    pub fn pop(mut self, context: Context) -> Engine
        requires { context ≡ newest self.kept }
        ensures { result ≡ popped self }
    {
        let mut now = self.now;
        let mut kept = self.kept;
        let count = kept.count;
        now.context = context;
        if 0 < count {
            kept.count = count - 1;
        }
        self.now = now;
        self.kept = kept;
        self
    }

    // CALL: the place, which is past the word, is the return address.
    #[tactic(auto, unfolding(crate::specs::Kept::called))]
    pub fn call(mut self, to: u32) -> Engine
        requires { self.now.depth < 4 }
        ensures { result ≡ called self to }
    {
        let mut now = self.now;
        let at = now.at;
        let a = now.calls[0];
        let b = now.calls[1];
        let c = now.calls[2];
        let calls = [at, a, b, c];
        now.calls = calls;
        now.depth = now.depth + 1;
        now.at = to;
        self.now = now;
        self
    }

    // RETURN: to the newest call's return address.
    #[tactic(auto, unfolding(crate::specs::Kept::returned))]
    pub fn back(mut self) -> Engine
        requires { 0 < self.now.depth }
        ensures { result ≡ returned self }
    {
        let mut now = self.now;
        let a = now.calls[0];
        let b = now.calls[1];
        let c = now.calls[2];
        let d = now.calls[3];
        let calls = [b, c, d, 0];
        now.calls = calls;
        now.depth = now.depth - 1;
        now.at = a;
        self.now = now;
        self
    }
}
