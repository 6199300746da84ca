ghost use Rattle.std.specs.Prelude.{◌+◌, ◌*◌, ◌≤◌, length};
ghost use Rattle.std.specs.List.{flat_map};
ghost use Rattle.byte_writers.specs.Wrote.{Wrote};
ghost use Rattle.streams.specs.Splice.{Cuts};
ghost use Rattle.streams.specs.Kind.{cuts_of, stream_bytes, stream_count};
ghost use Rattle.streams.specs.EntryKind.{entry_put, entry_cuts, entry_stream_bytes, entry_stream_count};

use crate::entry_stream::EntryStream;
use crate::glyph_runs::GlyphRuns;
use crate::run_stream::RunStream;
use crate::supplied::Supplied;
use byte_writers::Writer;
use records::{Glyph, GlyphRun};
use std::marker::PhantomData;
use supply::GlyphSupply;

// What a run inserts: for each glyph in order its entries, and then the close.
fn put_run<X, S: EntryStream<X>>(
    stream: &S,
    writer: &mut Writer<'_>,
    run: &GlyphRun,
    glyphs: &[Glyph],
)
    requires { writer.old.at + (S.kind stream.now).wide * length (entry_put (S.kind stream.now) glyphs.now run.now) ≤ length writer.old.out.now }
    ensures { Wrote writer.old (flat_map (S.kind stream.now).bytes (entry_put (S.kind stream.now) glyphs.now run.now)) writer.new }
{
    if !stream.session(run) {
        return;
    }
    for glyph in glyphs {
        stream.put_glyph(writer, run, glyph);
    }
    stream.put_close(writer, run);
}

// Entries up to each run's place, then what the run inserts, and at last the rest.
pub fn put_entry_stream<X, S: EntryStream<X>>(
    stream: &S,
    writer: &mut Writer<'_>,
    entries: &[X],
    all: GlyphRuns<'_>,
)
    requires cuts { Cuts (length entries.now) 0 (entry_cuts (S.kind stream.now) all.glyphs.now all.runs.now) }
    requires space { writer.old.at + (S.kind stream.now).wide * entry_stream_count (S.kind stream.now) (length entries.now) all.glyphs.now all.runs.now ≤ length writer.old.out.now }
    ensures { Wrote writer.old (entry_stream_bytes (S.kind stream.now) entries.now all.entry.glyphs.now all.entry.runs.now) writer.new }
{
    let mut from = 0;
    for run in all.runs {
        let place = stream.place(run);
        stream.put_entries(writer, &entries[from..place]);
        put_run(stream, writer, run, all.glyphs_of(run));
        from = place;
    }
    stream.put_entries(writer, &entries[from..]);
}

// The same for a stream of any glyph supply, at one of them.
pub fn put_stream<S: RunStream, G: GlyphSupply>(
    supply: &G,
    writer: &mut Writer<'_>,
    entries: &[S::Item],
    all: GlyphRuns<'_>,
)
    requires cuts { Cuts (length entries.now) 0 (cuts_of S.kind (G.GlyphSupply.meaning supply.now) all.glyphs.now all.runs.now) }
    requires space { writer.old.at + S.Item.wide * stream_count S.kind (G.GlyphSupply.meaning supply.now) (length entries.now) all.glyphs.now all.runs.now ≤ length writer.old.out.now }
    ensures { Wrote writer.old (stream_bytes S.Item.bytes S.kind (G.GlyphSupply.meaning supply.now) entries.now all.entry.glyphs.now all.entry.runs.now) writer.new }
{
    let stream = Supplied::<S, G> {
        stream: PhantomData,
        supply,
    };
    put_entry_stream(&stream, writer, entries, all);
}
