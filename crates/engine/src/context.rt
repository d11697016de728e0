// A context: the values that SAVE_CONTEXT keeps and RESTORE_CONTEXT brings back, each as its command gave it.
ghost use Rattle.std.specs.Prelude.{◌≡◌};
ghost use Rattle.engine.specs.Context.{starting, ink_of, scissor_of};

use crate::handles::cover;
use action::{
    AlphaTest, Area, Blend, ClearValues, Colour, Factor, Ink, Masks, StencilAction, StencilActions,
    StencilTest, Test,
};
use units::{LengthInPixels, Pixels};

// What every drawing but a CLEAR is drawn with: colour, tag, tests, stencil actions, blend, each the plain number that its
// word gave; `numbers-meant` of crates/invariant tells what each names.
#[derive(Clone, Copy)]
pub struct Brush {
    pub red: u32,
    pub green: u32,
    pub blue: u32,
    pub alpha: u32,
    pub tag: u32,
    pub alphatest: u32,
    pub alphareference: u32,
    pub stenciltest: u32,
    pub stencilreference: u32,
    pub stencilmask: u32,
    pub fail: u32,
    pub pass: u32,
    pub source: u32,
    pub target: u32,
}

// Where it is drawn and how large: scissor, sizes, what places a vertex, the current handle and cell. Every size and width is kept
// as the plain number of its command, since a word that sets one is then a store and no more; it gets its count as a shape or an area is made of it.
#[derive(Clone, Copy)]
pub struct Placing {
    pub left: u32,
    pub top: u32,
    pub width: u32,
    pub height: u32,
    pub pointsize: u32,
    pub linewidth: u32,
    pub frac: u32,
    pub dx: u32,
    pub dy: u32,
    pub handle: u32,
    pub cell: u32,
}

#[derive(Clone, Copy)]
pub struct Context {
    pub brush: Brush,
    pub masks: Masks,
    pub clearing: ClearValues,
    pub placing: Placing,
}

impl Context {
    pub fn start() -> Context
        ensures { result ≡ starting }
    {
        let brush = Brush {
            red: 255,
            green: 255,
            blue: 255,
            alpha: 255,
            tag: 255,
            alphatest: 7,
            alphareference: 0,
            stenciltest: 7,
            stencilreference: 0,
            stencilmask: 255,
            fail: 1,
            pass: 1,
            source: 2,
            target: 4,
        };
        let masks = Masks {
            red: 1,
            green: 1,
            blue: 1,
            alpha: 1,
            stencil: 255,
            tag: 1,
        };
        let clearing = ClearValues {
            red: 0,
            green: 0,
            blue: 0,
            alpha: 0,
            stencil: 0,
            tag: 0,
        };
        let still = units::translate(0);
        let placing = Placing {
            left: 0,
            top: 0,
            width: 2048,
            height: 2048,
            pointsize: 16,
            linewidth: 16,
            frac: 4,
            dx: still,
            dy: still,
            handle: 0,
            cell: 0,
        };
        Context {
            brush,
            masks,
            clearing,
            placing,
        }
    }

    #[tactic(auto, unfolding(crate::specs::Context::ink_of))]
    pub fn ink(self) -> Ink
        ensures { result ≡ ink_of self.brush }
    {
        let b = self.brush;
        Ink {
            colour: Colour {
                red: b.red,
                green: b.green,
                blue: b.blue,
                alpha: b.alpha,
            },
            alpha: AlphaTest {
                test: Test::from(b.alphatest),
                reference: b.alphareference,
            },
            stencil: StencilTest {
                test: Test::from(b.stenciltest),
                reference: b.stencilreference,
                mask: b.stencilmask,
            },
            actions: StencilActions {
                fail: StencilAction::from(b.fail),
                pass: StencilAction::from(b.pass),
            },
            blend: Blend {
                source: Factor::from(b.source),
                target: Factor::from(b.target),
            },
            tag: b.tag,
        }
    }

    #[tactic(auto, unfolding(crate::specs::Context::scissor_of))]
    pub fn scissor(self) -> Area
        ensures { result ≡ scissor_of self.placing }
    {
        let p = self.placing;
        cover(
            Pixels::of(p.left),
            Pixels::of(p.top),
            LengthInPixels(u64::from(p.width)),
            LengthInPixels(u64::from(p.height)),
        )
    }
}
