// Why a word holds no command, or no word holds a command.
ghost use Rattle.std.specs.Prelude.{◌≡◌};
ghost use Rattle.words.specs.Words.{checked, word_fault_number};

#[derive(Clone, Copy, PartialEq, Eq)]
pub enum WordFault {
    NoCommand,
    NoMeaning,
}

impl WordFault {
    // Its number in document 01's table.
    pub fn number(self) -> u32
        ensures { result ≡ word_fault_number self }
    {
        match self {
            WordFault::NoCommand => 11,
            WordFault::NoMeaning => 12,
        }
    }
}

// What has a meaning, or else its refusal.
#[tactic(auto, unfolding(crate::specs::Words::checked))]
pub fn checked<T: Copy>(ok: bool, value: T) -> Result<T, WordFault>
    ensures { result ≡ checked ok value }
{
    if ok {
        Ok(value)
    } else {
        Err(WordFault::NoMeaning)
    }
}
