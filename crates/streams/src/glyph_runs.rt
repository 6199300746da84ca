ghost use Rattle.std.specs.Prelude.{length};
ghost use Rattle.streams.specs.Inside.{Inside};

use records::{Glyph, GlyphRun};

// The glyph runs of a scene, with the glyphs that their ranges lie in.
#[derive(Clone, Copy)]
pub struct GlyphRuns<'a> {
    pub glyphs: &'a [Glyph],
    pub runs: &'a [GlyphRun],
    pub ghost inside: { Inside (length glyphs.now) runs.now },
}

impl<'a> GlyphRuns<'a> {
    ghost use Rattle.std.specs.Prelude.{◌≡◌, ◌≤◌};
    ghost use Rattle.streams.specs.Kind.{range_of};

    // The glyphs of one of the runs.
    pub(crate) fn glyphs_of(&self, run: &GlyphRun) -> &'a [Glyph]
        requires rising { run.now.glyphs_start ≤ run.now.glyphs_end }
        requires inside { run.now.glyphs_end ≤ length self.now.glyphs.now }
        ensures { result.now ≡ range_of self.now.glyphs.now run.now }
    {
        &self.glyphs[run.glyphs_start..run.glyphs_end]
    }
}
