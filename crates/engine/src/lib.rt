// A display list run: the state of the engine, what each command does to it, and the actions that come of it.
//
// A `Screen` is a list that can be run: `finish` runs it to its end or fault, and of a `Run` of it `next` asks for one
// drawing action after the other. Both stand on `Engine::advance`, which goes on from an engine to the next action, the end
// or the fault. The function `advance` does so by value, and the function `finish` runs a list where RAM_G's length alone
// is known. Their callers never see a word.
#![tactic(auto)]

mod command;
mod context;
mod drawn;
mod fault;
mod handles;
mod kept;
mod machine;
mod run;
mod running;
mod screen;
mod vertex;

pub use fault::Fault;
pub use handles::{Handles, Layout, LayoutHigh, Settings, Size};
pub use kept::Engine;
pub use run::{Advanced, Find, Stop, advance};
pub use running::{Ending, Run, finish};
pub use screen::Screen;
