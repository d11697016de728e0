// The words of a display list: the commands by name, a word read, a command written.
//
// `read_word` gives the command of a word. `spell_bits` gives it as plain numbers, which is how C passes it, and
// `write_spelling` gives the word of such numbers.
#![tactic(auto)]

mod fault;
mod field;
mod reading;
mod spelling;
mod telling;
mod word;
mod writing;

pub use fault::WordFault;
pub use reading::read_word;
pub use spelling::Spelling;
pub use telling::spell_bits;
pub use word::Word;
pub use writing::write_spelling;
