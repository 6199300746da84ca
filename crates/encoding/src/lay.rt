ghost use Rattle.std.specs.Prelude.{◌≡◌};
ghost use Rattle.std.specs.List.{list_all};
ghost use Rattle.math.specs.Finite.{all_finite};
ghost use Rattle.encoding.specs.Scene.{meaning, room};
ghost use Rattle.encoding.specs.Answer.{Answers};
ghost use Rattle.encoding.specs.Laid.{laid, lay_refusal, lengths};

use crate::encoding::Encoding;
use math::Transform;
use records::{Counts, Refusal, StreamOffsets, Streams};

fn are_finite(transforms: &[Transform]) -> bool
    ensures { result ≡ list_all all_finite transforms.now }
{
    transforms.iter().all(|t| t.is_finite())
}

fn lengths(streams: Streams<'_>) -> StreamOffsets
    ensures { result ≡ lengths streams.entry }
{
    StreamOffsets {
        path_tags: streams.path_tags.len(),
        path_data: streams.path_data.len(),
        draw_tags: streams.draw_tags.len(),
        draw_data: streams.draw_data.len(),
        transforms: streams.transforms.len(),
        styles: streams.styles.len(),
    }
}

impl Encoding {
    // Adds entries to the six streams, adds to the counts and sets the flags.
    pub fn lay(&mut self, streams: Streams<'_>, counts: Counts, flags: u32) -> Result<(), Refusal>
        ensures { Answers self.old (lay_refusal (meaning self.old) (room self.old) streams.entry counts) (laid (meaning self.old) streams.entry counts flags) result self.new }
    {
        if !are_finite(streams.transforms) {
            return Err(Refusal::NotFinite);
        }
        if !self.has_room_for_streams(lengths(streams)) {
            return Err(Refusal::Full);
        }
        if !self.counts_stay_few(counts) {
            return Err(Refusal::TooMany);
        }
        self.path_tags.extend_from_slice(streams.path_tags);
        self.path_data.extend_from_slice(streams.path_data);
        self.draw_tags.extend_from_slice(streams.draw_tags);
        self.draw_data.extend_from_slice(streams.draw_data);
        self.transforms.extend_from_slice(streams.transforms);
        self.styles.extend_from_slice(streams.styles);
        self.counts += counts;
        self.flags = flags;
        Ok(())
    }
}
