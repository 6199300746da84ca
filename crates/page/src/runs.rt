ghost use Rattle.std.specs.Prelude.{◌≡◌};
ghost use Rattle.encoding.specs.Scene.{meaning};

use encoding::Encoding;
use streams::GlyphRuns;

// The glyph runs of a scene, lent with its glyphs.
pub(crate) fn glyph_runs(encoding: &Encoding) -> GlyphRuns<'_>
    ensures glyphs { result.glyphs.now ≡ (meaning encoding.now).glyphs }
    ensures runs { result.runs.now ≡ (meaning encoding.now).runs }
{
    GlyphRuns {
        glyphs: encoding.glyphs(),
        runs: encoding.glyph_runs(),
    }
}
