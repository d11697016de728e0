// What a display list names by number: tests, stencil actions, blend factors and bitmap formats.
// No word with another number reaches an action, so a number that names nothing may give any case: it gives the last.
ghost use Rattle.std.specs.Prelude.{◌≡◌};
ghost use Rattle.action.specs.Numbers.{test_of, test_number, stencil_action_of, stencil_action_number, factor_of, factor_number, format_of, format_number};
ghost use Rattle.action.specs.Same.{Tells};

#[derive(Clone, Copy, PartialEq, Eq)]
pub enum Test {
    Never = 0,
    Less = 1,
    LessOrEqual = 2,
    Greater = 3,
    GreaterOrEqual = 4,
    Equal = 5,
    NotEqual = 6,
    Always = 7,
}

impl Test {
    pub fn is(self, other: Test) -> bool
        ensures { Tells result (self ≡ other) }
    {
        self == other
    }
}

impl From<u32> for Test {
    ghost from_gives = { λ n named. named ≡ test_of n };

    #[tactic(auto, unfolding(crate::specs::Numbers::test_of))]
    fn from(n: u32) -> Test {
        match n {
            0 => Test::Never,
            1 => Test::Less,
            2 => Test::LessOrEqual,
            3 => Test::Greater,
            4 => Test::GreaterOrEqual,
            5 => Test::Equal,
            6 => Test::NotEqual,
            _ => Test::Always,
        }
    }
}

impl From<Test> for u32 {
    ghost from_gives = { λ test n. n ≡ test_number test };

    #[tactic(auto, unfolding(crate::specs::Numbers::test_number))]
    fn from(test: Test) -> u32 {
        test as u32
    }
}

// What happens to the stored stencil.
#[derive(Clone, Copy, PartialEq, Eq)]
pub enum StencilAction {
    Zero = 0,
    Keep = 1,
    Replace = 2,
    Incr = 3,
    Decr = 4,
    Invert = 5,
}

impl StencilAction {
    pub fn is(self, other: StencilAction) -> bool
        ensures { Tells result (self ≡ other) }
    {
        self == other
    }
}

impl From<u32> for StencilAction {
    ghost from_gives = { λ n named. named ≡ stencil_action_of n };

    #[tactic(auto, unfolding(crate::specs::Numbers::stencil_action_of))]
    fn from(n: u32) -> StencilAction {
        match n {
            0 => StencilAction::Zero,
            1 => StencilAction::Keep,
            2 => StencilAction::Replace,
            3 => StencilAction::Incr,
            4 => StencilAction::Decr,
            _ => StencilAction::Invert,
        }
    }
}

impl From<StencilAction> for u32 {
    ghost from_gives = { λ action n. n ≡ stencil_action_number action };

    #[tactic(auto, unfolding(crate::specs::Numbers::stencil_action_number))]
    fn from(action: StencilAction) -> u32 {
        action as u32
    }
}

// What a colour is multiplied by when it is blended.
#[derive(Clone, Copy, PartialEq, Eq)]
pub enum Factor {
    Zero = 0,
    One = 1,
    SrcAlpha = 2,
    DstAlpha = 3,
    OneMinusSrcAlpha = 4,
    OneMinusDstAlpha = 5,
}

impl Factor {
    pub fn is(self, other: Factor) -> bool
        ensures { Tells result (self ≡ other) }
    {
        self == other
    }
}

impl From<u32> for Factor {
    ghost from_gives = { λ n named. named ≡ factor_of n };

    #[tactic(auto, unfolding(crate::specs::Numbers::factor_of))]
    fn from(n: u32) -> Factor {
        match n {
            0 => Factor::Zero,
            1 => Factor::One,
            2 => Factor::SrcAlpha,
            3 => Factor::DstAlpha,
            4 => Factor::OneMinusSrcAlpha,
            _ => Factor::OneMinusDstAlpha,
        }
    }
}

impl From<Factor> for u32 {
    ghost from_gives = { λ factor n. n ≡ factor_number factor };

    #[tactic(auto, unfolding(crate::specs::Numbers::factor_number))]
    fn from(factor: Factor) -> u32 {
        factor as u32
    }
}

// The formats that are drawn.
#[derive(Clone, Copy, PartialEq, Eq)]
pub enum Format {
    Argb1555 = 0,
    L8 = 3,
    Rgb565 = 7,
}

impl Format {
    pub fn is(self, other: Format) -> bool
        ensures { Tells result (self ≡ other) }
    {
        self == other
    }
}

impl From<u32> for Format {
    ghost from_gives = { λ n named. named ≡ format_of n };

    #[tactic(auto, unfolding(crate::specs::Numbers::format_of))]
    fn from(n: u32) -> Format {
        match n {
            0 => Format::Argb1555,
            3 => Format::L8,
            _ => Format::Rgb565,
        }
    }
}

impl From<Format> for u32 {
    ghost from_gives = { λ format n. n ≡ format_number format };

    #[tactic(auto, unfolding(crate::specs::Numbers::format_number))]
    fn from(format: Format) -> u32 {
        format as u32
    }
}
