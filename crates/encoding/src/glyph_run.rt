ghost use Rattle.std.specs.Prelude.{◌≡◌, length};
ghost use Rattle.std.specs.List.{list_all};
ghost use Rattle.records.specs.Finite.{glyph_finite};
ghost use Rattle.encoding.specs.Scene.{meaning, room};
ghost use Rattle.encoding.specs.Answer.{Answers};
ghost use Rattle.encoding.specs.Drawn.{run_added, run_spacious, run_refusal};

use crate::encoding::Encoding;
use records::{Glyph, GlyphRun, Patch, Refusal, RunAttributes};

fn are_finite(glyphs: &[Glyph]) -> bool
    ensures { result ≡ list_all glyph_finite glyphs.now }
{
    glyphs.iter().all(|g| g.is_finite())
}

impl Encoding {
    fn has_room_for_run(&self, n: usize) -> bool
        ensures { result ≡ run_spacious (meaning self.now) (room self.now) n }
    {
        self.resources.patches.has_room(1)
            && self.resources.glyphs.has_room(n)
            && self.resources.glyph_runs.has_room(1)
    }

    // Encodes a run of glyphs, whose outlines are bound late at the streams' present lengths.
    pub fn encode_glyph_run(
        &mut self,
        attributes: RunAttributes,
        glyphs: &[Glyph],
    ) -> Result<(), Refusal>
        ensures { Answers self.old (run_refusal (meaning self.old) (room self.old) attributes glyphs.now) (run_added (meaning self.old) attributes glyphs.now) result self.new }
    {
        if !(attributes.is_finite() && are_finite(glyphs)) {
            return Err(Refusal::NotFinite);
        }
        if !self.has_room_for_run(glyphs.len()) {
            return Err(Refusal::Full);
        }
        let glyphs_start = self.resources.glyphs.len();
        let run = GlyphRun {
            attributes,
            glyphs_start,
            glyphs_end: glyphs_start + glyphs.len(),
            stream_offsets: self.stream_offsets(),
        };
        self.resources.patches.push(Patch::GlyphRun {
            index: self.resources.glyph_runs.len(),
        });
        self.resources.glyphs.extend_from_slice(glyphs);
        self.resources.glyph_runs.push(run);
        Ok(())
    }
}
