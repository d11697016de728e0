// Why a call changes nothing.
ghost use Rattle.std.specs.Prelude.{◌≡◌};
ghost use Rattle.ring.specs.Refusal.{refusal_number};

#[derive(Clone, Copy, PartialEq, Eq)]
pub enum Refusal {
    BadMark,
    Faulty,
    BadRun,
    NoRoom,
}

impl Refusal {
    #[tactic(auto, unfolding(crate::specs::Refusal::refusal_number))]
    pub fn number(self) -> u32
        ensures { result ≡ refusal_number self }
    {
        match self {
            Refusal::BadMark => 33,
            Refusal::Faulty => 36,
            Refusal::BadRun => 37,
            Refusal::NoRoom => 38,
        }
    }
}
