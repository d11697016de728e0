// Why a run stops before its list has ended, a word aside that could not be read: that is a WordFault of `words`.
ghost use Rattle.std.specs.Prelude.{◌≡◌};
ghost use Rattle.engine.specs.Fault.{fault_number};

#[derive(Clone, Copy, PartialEq, Eq)]
pub enum Fault {
    // The next word would start at or past the list's end.
    PastTheEnd = 10,
    NotDrawn = 13,
    CallsTooDeep = 14,
    NothingToReturnTo = 15,
    // A CALL or JUMP to where no word starts.
    NotAWord = 16,
    NothingBegun = 17,
    Undrawable = 18,
    LimitReached = 19,
    // A segment's end lies too far out.
    EndTooFar = 20,
}

impl Fault {
    // Its number in document 01's table.
    pub fn number(self) -> u32
        ensures { result ≡ fault_number self }
    {
        self as u32
    }
}
