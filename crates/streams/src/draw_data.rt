ghost use Rattle.std.specs.Prelude.{◌≡◌, ◌+◌, ◌*◌, ◌≤◌, length};
ghost use Rattle.byte_writers.specs.Bytes.{words_bytes};
ghost use Rattle.byte_writers.specs.Wrote.{Wrote};
ghost use Rattle.streams.specs.Splice.{Cuts};
ghost use Rattle.streams.specs.Draw.{Late, owned_from, draw_data_cuts, bound_draw_data};

use arrayvec::ArrayVec;
use byte_writers::Writer;
use records::Patch;

// The words that the patches of a page bind late, by the number of the patch; for one that binds none, no words.
pub trait LateWords {
    ghost late: { Self → Late };

    fn words(&self, patch: usize) -> ArrayVec<u32, 2>
        ensures { result.items ≡ late self.now patch };
}

// Where the words that a patch owns begin.
fn owned_from(patch: &Patch) -> Option<usize>
    ensures { result ≡ owned_from patch.now }
{
    match *patch {
        Patch::Ramp {
            draw_data_offset,
            ..
        }
        | Patch::Image {
            draw_data_offset,
            ..
        } => Some(draw_data_offset),
        Patch::GlyphRun { .. } => None,
    }
}

// The words up to each patch's place, then those that it binds late, and at last the rest.
pub fn put_draw_data<L: LateWords>(
    late: &L,
    writer: &mut Writer<'_>,
    words: &[u32],
    patches: &[Patch],
)
    requires cuts { Cuts (length words.now) 0 (draw_data_cuts (L.LateWords.late late.now) 0 patches.now) }
    requires space { writer.old.at + 4 * length words.now ≤ length writer.old.out.now }
    ensures { Wrote writer.old (words_bytes (bound_draw_data (L.LateWords.late late.now) words.now patches.now)) writer.new }
{
    let mut from = 0;
    for (k, patch) in patches.iter().enumerate() {
        if let Some(place) = owned_from(patch) {
            let late_bound = late.words(k);
            let bound = late_bound.as_slice();
            writer.put_all(&words[from..place]);
            writer.put_all(bound);
            from = place + bound.len();
        }
    }
    writer.put_all(&words[from..]);
}
