ghost use Rattle.std.specs.Prelude.{◌≡◌};
ghost use Rattle.supply.specs.Meaning.{Short};
ghost use Rattle.supply.specs.Shown.{shape_of};
ghost use Rattle.streams.specs.Inserted.{session_of, outline_of, glyph_transform, brush_transform};

use math::Transform;
use records::{Glyph, GlyphRun};
use supply::{GlyphSupply, Outline, SessionKey};

pub(crate) fn has_session<G: GlyphSupply>(supply: &G, run: &GlyphRun) -> bool
    ensures { result ≡ session_of (G.GlyphSupply.meaning supply.now) run.now }
{
    supply.session(SessionKey::from(&run.attributes))
}

// A missing glyph has an empty outline.
pub(crate) fn outline_of<'a, G: GlyphSupply>(
    supply: &'a G,
    run: &GlyphRun,
    glyph: &Glyph,
) -> Outline<'a>
    ensures value { shape_of result ≡ outline_of (G.GlyphSupply.meaning supply.now) run.now glyph.now }
    ensures short { Short (shape_of result) }
{
    let key = SessionKey::from(&run.attributes);
    supply.outline(key, glyph.id).unwrap_or(Outline {
        tags: &[],
        words: &[],
        styles: &[],
    })
}

// Where a glyph's outline goes.
pub(crate) fn glyph_transform(run: &GlyphRun, glyph: &Glyph) -> Transform
    ensures { result ≡ glyph_transform run.now glyph.now }
{
    let placed = Transform {
        matrix: [1.0, 0.0, 0.0, -1.0],
        translation: [glyph.x, glyph.y],
    };
    let whole = run.attributes.transform * placed;
    run.attributes
        .glyph_transform
        .map_or(whole, |inner| whole * inner)
}

// How the run is painted.
pub(crate) fn brush_transform(run: &GlyphRun) -> Transform
    ensures { result ≡ brush_transform run.now }
{
    let brush = run.attributes.brush_transform;
    run.attributes.transform * brush.unwrap_or(Transform::identity())
}
