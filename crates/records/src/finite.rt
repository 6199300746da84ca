ghost use Rattle.std.specs.Prelude.{◌≡◌, [], ◌∷◌};
ghost use Rattle.records.specs.Finite.{glyph_finite, stop_finite, given_finite, attributes_finite};

use crate::glyph::{Glyph, RunAttributes};
use draw::ColorStop;
use math::Transform;

impl Glyph {
    pub fn is_finite(&self) -> bool
        ensures { result ≡ glyph_finite self.now }
    {
        self.x.is_finite() && self.y.is_finite()
    }
}

// The five numbers of a stop.
pub(crate) fn numbers(stop: &ColorStop) -> [f32; 5]
    ensures { result ≡ stop.now.offset ∷ stop.now.color.r ∷ stop.now.color.g ∷ stop.now.color.b ∷ stop.now.color.a ∷ [] }
{
    let c = stop.color;
    [stop.offset, c.r, c.g, c.b, c.a]
}

pub fn is_stop_finite(stop: &ColorStop) -> bool
    ensures { result ≡ stop_finite stop.now }
{
    numbers(stop).iter().all(|n| n.is_finite())
}

// A transform that is not given is finite.
pub fn is_given_finite(transform: Option<Transform>) -> bool
    ensures { result ≡ given_finite transform }
{
    transform.map_or(true, |t| t.is_finite())
}

impl RunAttributes {
    pub fn is_finite(&self) -> bool
        ensures { result ≡ attributes_finite self.now }
    {
        self.font_size.is_finite()
            && self.transform.is_finite()
            && is_given_finite(self.glyph_transform)
            && is_given_finite(self.brush_transform)
    }
}
