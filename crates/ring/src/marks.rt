// The four marks, and the answer of a ring call.
ghost use Rattle.std.specs.Prelude.{◌≡◌};
ghost use Rattle.ring.specs.Ring.{reported as shows, are_places, is_place};

#[derive(Clone, Copy)]
pub struct Marks {
    pub read: u32,
    pub write: u32,
    pub offset: u32,
    pub fault: u32,
}

// What C is told: `number` is one of document 01's table, 0, 30 and 31 among them, which are no refusals.
#[derive(Clone, Copy)]
pub struct Answer {
    pub number: u32,
    pub place: u32,
    pub count: u32,
    pub marks: Marks,
}

fn is_place(most: u32, at: u32) -> bool
    ensures { result ≡ is_place most at }
{
    (at % 4 == 0) & (at <= most)
}

impl Marks {
    #[tactic(auto, unfolding(crate::specs::Ring::are_places))]
    pub(crate) fn are_places(self) -> bool
        ensures { result ≡ are_places self }
    {
        is_place(4092, self.read) & is_place(4092, self.write) & is_place(8192, self.offset)
    }

    // The read mark as the chip shows it.
    #[tactic(auto, unfolding(crate::specs::Ring::reported, crate::specs::Ring::is_free))]
    pub fn reported(self) -> u32
        ensures { result ≡ shows self }
    {
        if self.fault != 0 {
            return 0xFFF;
        }
        self.read
    }
}
