ghost use Rattle.streams.specs.EntryKinds.{tag_entries};

use crate::entry_stream::EntryStream;
use crate::glyphs::{has_session, outline_of};
use byte_writers::{Entry, Writer};
use draw::PathTag;
use records::{Glyph, GlyphRun};
use supply::GlyphSupply;

// The path tags, at one glyph supply.
#[derive(Drop)]
#[derive_where(Clone, Copy)]
pub struct PathTagStream<'a, G> {
    pub supply: &'a G,
}

impl<'a, G: GlyphSupply> EntryStream<u8> for PathTagStream<'a, G> {
    ghost kind = { λ s. tag_entries (G.GlyphSupply.meaning s.supply.now) };

    fn place(&self, run: &GlyphRun) -> usize {
        run.stream_offsets.path_tags
    }

    fn session(&self, run: &GlyphRun) -> bool {
        has_session(self.supply, run)
    }

    fn put_entries(&self, writer: &mut Writer<'_>, entries: &[u8]) {
        writer.put_all(entries);
    }

    // A transform tag and the outline's tags.
    fn put_glyph(&self, writer: &mut Writer<'_>, run: &GlyphRun, glyph: &Glyph) {
        PathTag::TRANSFORM.put(writer);
        writer.put_all(outline_of(self.supply, run, glyph).tags);
    }

    // A transform tag and a path tag.
    fn put_close(&self, writer: &mut Writer<'_>, _run: &GlyphRun) {
        writer.put_all(&[PathTag::TRANSFORM, PathTag::PATH]);
    }
}
