ghost use Rattle.streams.specs.EntryKinds.{style_entries};

use crate::entry_stream::EntryStream;
use crate::glyphs::{has_session, outline_of};
use byte_writers::Writer;
use records::{Glyph, GlyphRun, Style};
use supply::GlyphSupply;

// The styles, at one glyph supply.
#[derive(Drop)]
#[derive_where(Clone, Copy)]
pub struct StyleStream<'a, G> {
    pub supply: &'a G,
}

impl<'a, G: GlyphSupply> EntryStream<Style> for StyleStream<'a, G> {
    ghost kind = { λ s. style_entries (G.GlyphSupply.meaning s.supply.now) };

    fn place(&self, run: &GlyphRun) -> usize {
        run.stream_offsets.styles
    }

    fn session(&self, run: &GlyphRun) -> bool {
        has_session(self.supply, run)
    }

    fn put_entries(&self, writer: &mut Writer<'_>, entries: &[Style]) {
        writer.put_all(entries);
    }

    fn put_glyph(&self, writer: &mut Writer<'_>, run: &GlyphRun, glyph: &Glyph) {
        writer.put_all(outline_of(self.supply, run, glyph).styles);
    }

    fn put_close(&self, _writer: &mut Writer<'_>, _run: &GlyphRun) {}
}
