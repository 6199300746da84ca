ghost use Rattle.streams.specs.EntryKinds.{data_entries};

use crate::entry_stream::EntryStream;
use crate::glyphs::{has_session, outline_of};
use byte_writers::Writer;
use records::{Glyph, GlyphRun};
use supply::GlyphSupply;

// The path data, at one glyph supply.
#[derive(Drop)]
#[derive_where(Clone, Copy)]
pub struct PathDataStream<'a, G> {
    pub supply: &'a G,
}

impl<'a, G: GlyphSupply> EntryStream<u32> for PathDataStream<'a, G> {
    ghost kind = { λ s. data_entries (G.GlyphSupply.meaning s.supply.now) };

    fn place(&self, run: &GlyphRun) -> usize {
        run.stream_offsets.path_data
    }

    fn session(&self, run: &GlyphRun) -> bool {
        has_session(self.supply, run)
    }

    fn put_entries(&self, writer: &mut Writer<'_>, entries: &[u32]) {
        writer.put_all(entries);
    }

    fn put_glyph(&self, writer: &mut Writer<'_>, run: &GlyphRun, glyph: &Glyph) {
        writer.put_all(outline_of(self.supply, run, glyph).words);
    }

    fn put_close(&self, _writer: &mut Writer<'_>, _run: &GlyphRun) {}
}
