// Words read from runs of bytes and stored in them.
#![tactic(auto)]

ghost use Rattle.std.specs.Prelude.{◌≡◌, ◌+◌, ◌≤◌, get_or, length};
ghost use Rattle.runs.specs.Runs.{word_at, bytes_of, laid};

fn byte(run: &[u8], at: usize) -> u8
    ensures { result ≡ get_or run.now at 0 }
{
    run.get(at).copied().unwrap_or(0)
}

// The word at a place; bytes past the run's end count as 0, and no word of a run of whole words has any. Four plain
// reads are one load.
#[tactic(auto, unfolding(crate::specs::Runs::word_at))]
pub fn word_at(run: &[u8], at: u32) -> u32
    ensures { result ≡ word_at run.now at }
{
    let i = at as usize;
    if i + 3 < run.len() {
        return u32::from_le_bytes([run[i], run[i + 1], run[i + 2], run[i + 3]]);
    }
    u32::from_le_bytes([
        byte(run, i),
        byte(run, i + 1),
        byte(run, i + 2),
        byte(run, i + 3),
    ])
}

// Stores a word at a place.
#[tactic(auto, unfolding(crate::specs::Runs::bytes_of, crate::specs::Runs::laid))]
pub fn put_word(run: &mut [u8], at: usize, word: u32)
    requires { at + 4 ≤ length run.old }
    ensures { run.new ≡ laid at (bytes_of word) run.old }
{
    run[at..at + 4].copy_from_slice(&word.to_le_bytes());
}
