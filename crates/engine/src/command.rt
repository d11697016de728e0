// The commands: what each does to the machine and to the handles.
ghost use Rattle.std.specs.Prelude.{◌≡◌};
ghost use Rattle.engine.specs.Command.{clears, obeys};

use crate::drawn::{Primitive, is_drawn_format, is_drawn_size};
use crate::fault::Fault;
use crate::handles::{Handles, Layout, LayoutHigh, Size};
use crate::machine::{Event, Flags, Machine, Shape};
use crate::vertex::{Vertex, place2f, place2ii};
use words::Word;

// A command obeyed leaves an event to tell or a vertex to draw.
#[derive(Clone, Copy)]
pub enum Then {
    Tell(Event),
    Place(Vertex),
}

#[derive(Clone, Copy)]
pub struct Obeyed {
    pub machine: Machine,
    pub then: Then,
}

fn clear_event(colour: u32, stencil: u32, tag: u32) -> Event
    ensures { result ≡ clears colour stencil tag }
{
    Event::Draw(Shape::Clear(Flags {
        colour,
        stencil,
        tag,
    }))
}

impl Machine {
    // What a command does. Those that are not drawn yet are refused by the word alone.
    #[tactic(auto, unfolding(crate::specs::Command::obeys))]
    pub fn obey(mut self, handles: &mut Handles, word: Word) -> Obeyed
        ensures { (result ≡ (obeys self handles.old word).obeyed) × (handles.new ≡ (obeys self handles.old word).handles) }
    {
        let current = self.context.placing.handle;
        let quiet = Then::Tell(Event::Quiet);
        let undrawn = Then::Tell(Event::Fault(Fault::NotDrawn.number()));
        let then = match word {
            Word::Vertex2f { x, y } => Then::Place(place2f(self.context.placing, x, y)),
            Word::Vertex2ii { x, y, handle, cell } => Then::Place(place2ii(
                self.context.placing,
                x,
                y,
                handle,
                cell,
            )),
            Word::Display => Then::Tell(Event::Ended),
            Word::BitmapSource { addr } => {
                handles.put_source(current, addr);
                quiet
            }
            Word::ClearColorRgb { red, green, blue } => {
                self.context.clearing.red = red;
                self.context.clearing.green = green;
                self.context.clearing.blue = blue;
                quiet
            }
            Word::Tag { s } => {
                self.context.brush.tag = s;
                quiet
            }
            Word::ColorRgb { red, green, blue } => {
                self.context.brush.red = red;
                self.context.brush.green = green;
                self.context.brush.blue = blue;
                quiet
            }
            Word::BitmapHandle { handle } => {
                self.context.placing.handle = handle;
                quiet
            }
            Word::Cell { cell } => {
                self.context.placing.cell = cell;
                quiet
            }
            Word::BitmapLayout {
                format,
                linestride,
                height,
            } => {
                if is_drawn_format(format) {
                    let layout = Layout {
                        format,
                        stride: linestride,
                        height,
                    };
                    handles.put_layout(current, layout);
                    quiet
                } else {
                    undrawn
                }
            }
            Word::BitmapSize {
                filter,
                wrapx,
                wrapy,
                width,
                height,
            } => {
                if is_drawn_size(filter, wrapx, wrapy) {
                    handles.put_size(current, Size { width, height });
                    quiet
                } else {
                    undrawn
                }
            }
            Word::AlphaFunc { func, reference } => {
                self.context.brush.alphatest = func;
                self.context.brush.alphareference = reference;
                quiet
            }
            Word::StencilFunc {
                func,
                reference,
                mask,
            } => {
                self.context.brush.stenciltest = func;
                self.context.brush.stencilreference = reference;
                self.context.brush.stencilmask = mask;
                quiet
            }
            Word::BlendFunc { src, dst } => {
                self.context.brush.source = src;
                self.context.brush.target = dst;
                quiet
            }
            Word::StencilOp { sfail, spass } => {
                self.context.brush.fail = sfail;
                self.context.brush.pass = spass;
                quiet
            }
            Word::PointSize { size } => {
                self.context.placing.pointsize = size;
                quiet
            }
            Word::LineWidth { width } => {
                self.context.placing.linewidth = width;
                quiet
            }
            Word::ClearColorA { alpha } => {
                self.context.clearing.alpha = alpha;
                quiet
            }
            Word::ColorA { alpha } => {
                self.context.brush.alpha = alpha;
                quiet
            }
            Word::ClearStencil { s } => {
                self.context.clearing.stencil = s;
                quiet
            }
            Word::ClearTag { t } => {
                self.context.clearing.tag = t;
                quiet
            }
            Word::StencilMask { mask } => {
                self.context.masks.stencil = mask;
                quiet
            }
            Word::TagMask { mask } => {
                self.context.masks.tag = mask;
                quiet
            }
            Word::BitmapTransformA { a: _ } => undrawn,
            Word::BitmapTransformB { b: _ } => undrawn,
            Word::BitmapTransformC { c: _ } => undrawn,
            Word::BitmapTransformD { d: _ } => undrawn,
            Word::BitmapTransformE { e: _ } => undrawn,
            Word::BitmapTransformF { f: _ } => undrawn,
            Word::ScissorXy { x, y } => {
                self.context.placing.left = x;
                self.context.placing.top = y;
                quiet
            }
            Word::ScissorSize { width, height } => {
                self.context.placing.width = width;
                self.context.placing.height = height;
                quiet
            }
            Word::Call { dest } => {
                if 4 <= self.depth {
                    Then::Tell(Event::Fault(Fault::CallsTooDeep.number()))
                } else if dest % 4 == 0 {
                    Then::Tell(Event::Call(dest))
                } else {
                    Then::Tell(Event::Fault(Fault::NotAWord.number()))
                }
            }
            Word::Jump { dest } => {
                if dest % 4 == 0 {
                    self.at = dest;
                    quiet
                } else {
                    Then::Tell(Event::Fault(Fault::NotAWord.number()))
                }
            }
            Word::Begin { prim } => {
                if let Some(primitive) = Primitive::of(prim) {
                    self.primitive = Some(primitive);
                    self.corner = None;
                    quiet
                } else {
                    undrawn
                }
            }
            Word::ColorMask { r, g, b, a } => {
                self.context.masks.red = r;
                self.context.masks.green = g;
                self.context.masks.blue = b;
                self.context.masks.alpha = a;
                quiet
            }
            Word::End => {
                self.primitive = None;
                self.corner = None;
                quiet
            }
            Word::SaveContext => Then::Tell(Event::Save),
            Word::RestoreContext => Then::Tell(Event::Restore),
            Word::Return => {
                if self.depth == 0 {
                    Then::Tell(Event::Fault(Fault::NothingToReturnTo.number()))
                } else {
                    Then::Tell(Event::Return)
                }
            }
            Word::Macro { m: _ } => undrawn,
            Word::Clear { c, s, t } => Then::Tell(clear_event(c, s, t)),
            Word::VertexFormat { frac } => {
                self.context.placing.frac = frac;
                quiet
            }
            Word::BitmapLayoutH { linestride, height } => {
                let high = LayoutHigh {
                    stride: linestride,
                    height,
                };
                handles.put_layout_high(current, high);
                quiet
            }
            Word::BitmapSizeH { width, height } => {
                handles.put_size_high(current, Size { width, height });
                quiet
            }
            Word::PaletteSource { addr: _ } => undrawn,
            Word::VertexTranslateX { x } => {
                self.context.placing.dx = units::translate(x);
                quiet
            }
            Word::VertexTranslateY { y } => {
                self.context.placing.dy = units::translate(y);
                quiet
            }
            Word::Nop => quiet,
        };
        Obeyed {
            machine: self,
            then,
        }
    }
}
