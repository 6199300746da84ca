ghost use Rattle.std.specs.Prelude.{◌≡◌, ◌+◌, ◌*◌, ◌≤◌, length};
ghost use Rattle.std.specs.List.{flat_map};
ghost use Rattle.byte_writers.specs.Wrote.{Wrote};
ghost use Rattle.streams.specs.Kind.{Kind};

use byte_writers::{Entry, Writer};
use records::{Glyph, GlyphRun, StreamOffsets};
use supply::GlyphSupply;

// A stream that glyph runs go into, of any glyph supply: runs go by the sessions of the supply, and entries have the bytes of their type.
// It is a type alone, where an `EntryStream` is a value, with a kind, a session test and bytes of its own.
pub trait RunStream {
    type Item: Entry;

    ghost kind: { Kind Self.Item };

    // The stream's recorded length.
    fn place(offsets: &StreamOffsets) -> usize
        ensures { result ≡ kind.place offsets.now };

    fn put_glyph<G: GlyphSupply>(supply: &G, writer: &mut Writer<'_>, run: &GlyphRun, glyph: &Glyph)
        requires { writer.old.at + Self.Item.wide * length (kind.each (G.GlyphSupply.meaning supply.now) run.now glyph.now) ≤ length writer.old.out.now }
        ensures { Wrote writer.old (flat_map Self.Item.bytes (kind.each (G.GlyphSupply.meaning supply.now) run.now glyph.now)) writer.new };

    // What comes after the last glyph.
    fn put_close(writer: &mut Writer<'_>, run: &GlyphRun)
        requires { writer.old.at + Self.Item.wide * length (kind.close run.now) ≤ length writer.old.out.now }
        ensures { Wrote writer.old (flat_map Self.Item.bytes (kind.close run.now)) writer.new };
}
