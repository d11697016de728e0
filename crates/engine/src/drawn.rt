// What the first build draws; of what else has a meaning, the word gives 13.
ghost use Rattle.std.specs.Prelude.{◌≡◌};
ghost use Rattle.engine.specs.Drawn.{drawn_format, drawn_size, drawn_primitive};

// ARGB1555, L8 and RGB565.
#[tactic(auto, unfolding(crate::specs::Drawn::drawn_format))]
pub fn is_drawn_format(format: u32) -> bool
    ensures { result ≡ drawn_format format }
{
    matches!(format, 0 | 3 | 7)
}

// Neither filter 1 nor a wrap 1.
#[tactic(auto, unfolding(crate::specs::Drawn::drawn_size))]
pub fn is_drawn_size(filter: u32, wrapx: u32, wrapy: u32) -> bool
    ensures { result ≡ drawn_size filter wrapx wrapy }
{
    filter == 0 && wrapx == 0 && wrapy == 0
}

// The primitives that are drawn.
#[derive(Clone, Copy)]
pub enum Primitive {
    Bitmaps,
    Points,
    Lines,
    LineStrip,
    Rects,
}

impl Primitive {
    // The primitive of BEGIN's number, if it is drawn.
    #[tactic(auto, unfolding(crate::specs::Drawn::drawn_primitive))]
    pub fn of(number: u32) -> Option<Primitive>
        ensures { result ≡ drawn_primitive number }
    {
        match number {
            1 => Some(Primitive::Bitmaps),
            2 => Some(Primitive::Points),
            3 => Some(Primitive::Lines),
            4 => Some(Primitive::LineStrip),
            9 => Some(Primitive::Rects),
            _ => None,
        }
    }
}
