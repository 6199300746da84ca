ghost use Rattle.streams.specs.EntryKinds.{transform_entries};

use crate::entry_stream::EntryStream;
use crate::glyphs::{brush_transform, glyph_transform, has_session};
use byte_writers::{Entry, Writer};
use math::Transform;
use records::{Glyph, GlyphRun};
use supply::GlyphSupply;

// The transforms, at one glyph supply.
#[derive(Drop)]
#[derive_where(Clone, Copy)]
pub struct TransformStream<'a, G> {
    pub supply: &'a G,
}

impl<'a, G: GlyphSupply> EntryStream<Transform> for TransformStream<'a, G> {
    ghost kind = { λ s. transform_entries (G.GlyphSupply.meaning s.supply.now) };

    fn place(&self, run: &GlyphRun) -> usize {
        run.stream_offsets.transforms
    }

    fn session(&self, run: &GlyphRun) -> bool {
        has_session(self.supply, run)
    }

    fn put_entries(&self, writer: &mut Writer<'_>, entries: &[Transform]) {
        writer.put_all(entries);
    }

    fn put_glyph(&self, writer: &mut Writer<'_>, run: &GlyphRun, glyph: &Glyph) {
        glyph_transform(run, glyph).put(writer);
    }

    fn put_close(&self, writer: &mut Writer<'_>, run: &GlyphRun) {
        brush_transform(run).put(writer);
    }
}
