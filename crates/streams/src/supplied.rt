ghost use Rattle.std.specs.Prelude.{◌≡◌, length};
ghost use Rattle.streams.specs.EntryKinds.{at_supply};

use crate::entry_stream::EntryStream;
use crate::glyphs::has_session;
use crate::run_stream::RunStream;
use byte_writers::Writer;
use records::{Glyph, GlyphRun};
use std::marker::PhantomData;
use supply::GlyphSupply;

// A stream of any glyph supply, at one of them.
#[derive(Drop)]
pub(crate) struct Supplied<'a, S: RunStream, G> {
    pub(crate) stream: PhantomData<S>,
    pub(crate) supply: &'a G,
    // All entries have as many bytes.
    pub(crate) ghost wides: { (x : S.Item) → length (S.Item.bytes x) ≡ S.Item.wide },
}

impl<'a, S: RunStream, G: GlyphSupply> EntryStream<S::Item> for Supplied<'a, S, G> {
    ghost kind = { λ s. at_supply S.Item.bytes S.Item.wide s.wides S.kind (G.GlyphSupply.meaning s.supply.now) };

    fn place(&self, run: &GlyphRun) -> usize {
        S::place(&run.stream_offsets)
    }

    fn session(&self, run: &GlyphRun) -> bool {
        has_session(self.supply, run)
    }

    fn put_entries(&self, writer: &mut Writer<'_>, entries: &[S::Item]) {
        writer.put_all(entries);
    }

    fn put_glyph(&self, writer: &mut Writer<'_>, run: &GlyphRun, glyph: &Glyph) {
        S::put_glyph(self.supply, writer, run, glyph);
    }

    fn put_close(&self, writer: &mut Writer<'_>, run: &GlyphRun) {
        S::put_close(writer, run);
    }
}
