ghost use Rattle.std.specs.Prelude.{◌≡◌, ◌≤◌, length};
ghost use Rattle.streams.specs.Count.{run_inserted, all_inserted, AtMost};

use crate::glyph_runs::GlyphRuns;
use crate::glyphs::{has_session, outline_of};
use crate::inserted::Inserted;
use records::{Glyph, GlyphRun};
use supply::GlyphSupply;

fn count_run<G: GlyphSupply>(supply: &G, run: &GlyphRun, glyphs: &[Glyph]) -> Inserted
    requires few { length glyphs.now ≤ 1000000 }
    ensures value { result ≡ run_inserted (G.GlyphSupply.meaning supply.now) glyphs.now run.now }
    ensures small { AtMost 1 65537000002 result }
{
    if !has_session(supply, run) {
        return Inserted::default();
    }
    let mut sum = Inserted {
        runs: 1,
        path_tags: 2,
        transforms: 1,
        ..Inserted::default()
    };
    for glyph in glyphs {
        let outline = outline_of(supply, run, glyph);
        sum += Inserted {
            runs: 0,
            path_tags: 1 + outline.tags.len() as u64,
            path_data: outline.words.len() as u64,
            transforms: 1,
            styles: outline.styles.len() as u64,
        };
    }
    sum
}

// What all runs insert. An outline has at most 65,536 entries of a kind, so that no sum comes near 2^64.
pub fn count_inserted<G: GlyphSupply>(supply: &G, all: GlyphRuns<'_>) -> Inserted
    requires glyphs { length all.glyphs.now ≤ 1000000 }
    requires runs { length all.runs.now ≤ 1000000 }
    ensures value { result ≡ all_inserted (G.GlyphSupply.meaning supply.now) all.entry.glyphs.now all.entry.runs.now }
    ensures small { AtMost 1000000 65537000002000000 result }
{
    let mut sum = Inserted::default();
    for run in all.runs {
        sum += count_run(supply, run, all.glyphs_of(run));
    }
    sum
}
