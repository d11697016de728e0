// Marks that are places in the ring, and what waits between them.
ghost use Rattle.std.specs.Prelude.{◌≡◌, ◌≤◌, ◌%◌};
ghost use Rattle.ring.specs.Ring.{around as led, waiting as waits, word_from};

use crate::marks::Marks;

// Marks whose places lie in ring and list, each at a word's start.
#[derive(Clone, Copy)]
pub struct Placed {
    pub marks: Marks,
    ghost read: { (marks.read ≤ 4092) × (marks.read % 4 ≡ 0) },
    ghost write: { (marks.write ≤ 4092) × (marks.write % 4 ≡ 0) },
    ghost offset: { (marks.offset ≤ 8192) × (marks.offset % 4 ≡ 0) },
}

#[tactic(auto, unfolding(crate::specs::Ring::around))]
pub fn around(at: u32, bytes: u32) -> u32
    requires { (at ≤ 4096) × (bytes ≤ 4096) }
    ensures { result ≡ led at bytes }
{
    (at + bytes) % 4096
}

impl Placed {
    #[tactic(auto, unfolding(crate::specs::Ring::waiting))]
    pub fn waiting(self) -> u32
        ensures { result ≡ waits self.marks }
    {
        around(4096 - self.marks.read, self.marks.write)
    }

    // The ring's word that so many others precede, from the read mark on.
    #[tactic(auto, unfolding(crate::specs::Ring::word_from))]
    pub fn word(self, ring: &[u8; 4096], k: u32) -> u32
        requires { k ≤ 3 }
        ensures { result ≡ word_from ring.now self.marks.read k }
    {
        runs::word_at(ring, around(self.marks.read, 4 * k))
    }
}
