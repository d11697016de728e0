// What is drawn. A file of its own, since the fact that a `Screen` carries may not lead back to it.
ghost use Rattle.std.specs.Prelude.{length};
ghost use Rattle.engine.specs.Run.{WithinLimits};

// A list, RAM_G, and how many words a run of the list may fetch: within document 01's limits, so that each can be run.
#[derive(Clone, Copy)]
pub struct Screen<'a> {
    pub list: &'a [u8],
    pub memory: &'a [u8],
    pub limit: u32,
    ghost within: { WithinLimits list.now (length memory.now) },
}
