// How a covered pixel is changed.
ghost use Rattle.std.specs.Prelude.{◌≡◌};
ghost use Rattle.action.specs.Flags.{is_any};
ghost use Rattle.action.specs.Same.{Tells};

use crate::numbers::{Factor, StencilAction, Test};

#[derive(Clone, Copy, PartialEq, Eq)]
pub struct Colour {
    pub red: u32,
    pub green: u32,
    pub blue: u32,
    pub alpha: u32,
}

impl Colour {
    pub fn is(self, other: Colour) -> bool
        ensures { Tells result (self ≡ other) }
    {
        self == other
    }
}

#[derive(Clone, Copy, PartialEq, Eq)]
pub struct AlphaTest {
    pub test: Test,
    pub reference: u32,
}

impl AlphaTest {
    pub fn is(self, other: AlphaTest) -> bool
        ensures { Tells result (self ≡ other) }
    {
        self == other
    }
}

#[derive(Clone, Copy, PartialEq, Eq)]
pub struct StencilTest {
    pub test: Test,
    pub reference: u32,
    pub mask: u32,
}

impl StencilTest {
    pub fn is(self, other: StencilTest) -> bool
        ensures { Tells result (self ≡ other) }
    {
        self == other
    }
}

// What is done where the stencil test fails, and where it passes.
#[derive(Clone, Copy, PartialEq, Eq)]
pub struct StencilActions {
    pub fail: StencilAction,
    pub pass: StencilAction,
}

impl StencilActions {
    pub fn is(self, other: StencilActions) -> bool
        ensures { Tells result (self ≡ other) }
    {
        self == other
    }
}

#[derive(Clone, Copy, PartialEq, Eq)]
pub struct Blend {
    pub source: Factor,
    pub target: Factor,
}

impl Blend {
    pub fn is(self, other: Blend) -> bool
        ensures { Tells result (self ≡ other) }
    {
        self == other
    }
}

// What may be written: each channel and the tag by 0 or 1, the stencil bit by bit.
#[derive(Clone, Copy, PartialEq, Eq)]
pub struct Masks {
    pub red: u32,
    pub green: u32,
    pub blue: u32,
    pub alpha: u32,
    pub stencil: u32,
    pub tag: u32,
}

impl Masks {
    pub fn is(self, other: Masks) -> bool
        ensures { Tells result (self ≡ other) }
    {
        self == other
    }
}

// What every drawing but a CLEAR is drawn with.
#[derive(Clone, Copy, PartialEq, Eq)]
pub struct Ink {
    pub colour: Colour,
    pub alpha: AlphaTest,
    pub stencil: StencilTest,
    pub actions: StencilActions,
    pub blend: Blend,
    pub tag: u32,
}

impl Ink {
    pub fn is(self, other: Ink) -> bool
        ensures { Tells result (self ≡ other) }
    {
        self == other
    }
}

#[derive(Clone, Copy, PartialEq, Eq)]
pub struct ClearValues {
    pub red: u32,
    pub green: u32,
    pub blue: u32,
    pub alpha: u32,
    pub stencil: u32,
    pub tag: u32,
}

impl ClearValues {
    pub fn is(self, other: ClearValues) -> bool
        ensures { Tells result (self ≡ other) }
    {
        self == other
    }
}

// The flags of a CLEAR, 0 or 1, and what it clears to.
#[derive(Clone, Copy, PartialEq, Eq)]
pub struct Clear {
    pub colour: u32,
    pub stencil: u32,
    pub tag: u32,
    pub values: ClearValues,
}

impl Clear {
    pub fn is(self, other: Clear) -> bool
        ensures { Tells result (self ≡ other) }
    {
        self == other
    }

    // Whether it covers anything.
    #[tactic(auto, unfolding(crate::specs::Flags::is_any))]
    pub fn is_any(self) -> bool
        ensures { result ≡ is_any self }
    {
        self.colour != 0 || self.stencil != 0 || self.tag != 0
    }
}
