ghost use Rattle.std.specs.Prelude.{◌≡◌, ◌+◌, ◌≤◌, length};
ghost use Rattle.std.specs.List.{flat_map};
ghost use Rattle.byte_writers.specs.Wrote.{Wrote};
ghost use Rattle.streams.specs.EntryKind.{EntryKind};

use byte_writers::Writer;
use records::{Glyph, GlyphRun};

// A stream of entries X that glyph runs go into. What they put there may depend on the stream's value.
pub trait EntryStream<X> {
    ghost kind: { Self → EntryKind X };

    // The stream's length when the run was encoded.
    fn place(&self, run: &GlyphRun) -> usize
        ensures { result ≡ (kind self.now).place run.now.stream_offsets };

    // Whether the run goes into this stream. Each stream has its own test, so one from another crate need not go by a supply.
    fn session(&self, run: &GlyphRun) -> bool
        ensures { result ≡ (kind self.now).session run.now };

    fn put_entries(&self, writer: &mut Writer<'_>, entries: &[X])
        requires { writer.old.at + length (flat_map (kind self.now).bytes entries.now) ≤ length writer.old.out.now }
        ensures { Wrote writer.old (flat_map (kind self.now).bytes entries.now) writer.new };

    fn put_glyph(&self, writer: &mut Writer<'_>, run: &GlyphRun, glyph: &Glyph)
        requires { writer.old.at + length (flat_map (kind self.now).bytes ((kind self.now).each run.now glyph.now)) ≤ length writer.old.out.now }
        ensures { Wrote writer.old (flat_map (kind self.now).bytes ((kind self.now).each run.now glyph.now)) writer.new };

    // What comes after the last glyph.
    fn put_close(&self, writer: &mut Writer<'_>, run: &GlyphRun)
        requires { writer.old.at + length (flat_map (kind self.now).bytes ((kind self.now).close run.now)) ≤ length writer.old.out.now }
        ensures { Wrote writer.old (flat_map (kind self.now).bytes ((kind self.now).close run.now)) writer.new };
}
