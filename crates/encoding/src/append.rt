ghost use Rattle.std.specs.Prelude.{◌≡◌, true, length};
ghost use Rattle.encoding.specs.Scene.{meaning, room, ends, streams_spacious, StreamsFit};
ghost use Rattle.encoding.specs.Answer.{Answers};
ghost use Rattle.encoding.specs.Appended.{appended, append_refusal, append_spacious, counts_few, Spacious, Few};

use crate::encoding::Encoding;
use bounded::append_mapped;
use math::Transform;
use records::{
    Counts, PatchShift, Refusal, RunShift, StreamOffsets, TransformShift, is_given_finite,
};

impl Encoding {
    // A snapshot of the current stream offsets.
    pub fn stream_offsets(&self) -> StreamOffsets
        ensures { result ≡ ends (meaning self.now) }
    {
        StreamOffsets {
            path_tags: self.path_tags.len(),
            path_data: self.path_data.len(),
            draw_tags: self.draw_tags.len(),
            draw_data: self.draw_data.len(),
            transforms: self.transforms.len(),
            styles: self.styles.len(),
        }
    }

    // Whether the six streams take so many entries more.
    pub(crate) fn has_room_for_streams(&self, more: StreamOffsets) -> bool
        ensures value { result ≡ streams_spacious (meaning self.now) (room self.now) more }
        ensures each { result ≡ true → StreamsFit (meaning self.now) (room self.now) more }
    {
        self.path_tags.has_room(more.path_tags)
            && self.path_data.has_room(more.path_data)
            && self.draw_tags.has_room(more.draw_tags)
            && self.draw_data.has_room(more.draw_data)
            && self.transforms.has_room(more.transforms)
            && self.styles.has_room(more.styles)
    }

    fn has_room_for(&self, other: &Encoding) -> bool
        ensures value { result ≡ append_spacious (meaning self.now) (room self.now) (meaning other.now) }
        ensures each { result ≡ true → Spacious (meaning self.now) (room self.now) (meaning other.now) }
    {
        let late = &other.resources;
        self.has_room_for_streams(other.stream_offsets())
            && self.resources.patches.has_room(late.patches.len())
            && self.resources.color_stops.has_room(late.color_stops.len())
            && self.resources.glyphs.has_room(late.glyphs.len())
            && self.resources.glyph_runs.has_room(late.glyph_runs.len())
    }

    // Whether each count stays within 1,000,000 with `more` added.
    pub(crate) fn counts_stay_few(&self, more: Counts) -> bool
        ensures value { result ≡ counts_few (meaning self.now) more }
        ensures each { result ≡ true → Few (meaning self.now) more }
    {
        more.n_paths <= 1_000_000 - self.counts.n_paths
            && more.n_path_segments <= 1_000_000 - self.counts.n_path_segments
            && more.n_clips <= 1_000_000 - self.counts.n_clips
            && more.n_open_clips <= 1_000_000 - self.counts.n_open_clips
    }

    // How the patches move of an encoding that is appended.
    fn patch_shift(&self) -> PatchShift
        ensures words { result.words ≡ length (meaning self.now).draw_data }
        ensures stops { result.stops ≡ length (meaning self.now).stops }
        ensures runs { result.runs ≡ length (meaning self.now).runs }
    {
        PatchShift {
            words: self.draw_data.len(),
            stops: self.resources.color_stops.len(),
            runs: self.resources.glyph_runs.len(),
        }
    }

    // How the runs move of an encoding that is appended.
    fn run_shift(&self, by: Option<Transform>) -> RunShift
        ensures by { result.by ≡ by }
        ensures base { result.base ≡ ends (meaning self.now) }
        ensures glyphs { result.glyphs ≡ length (meaning self.now).glyphs }
    {
        RunShift {
            by,
            base: self.stream_offsets(),
            glyphs: self.resources.glyphs.len(),
        }
    }

    // Appends another encoding to this one with an optional transform.
    pub fn append(&mut self, other: &Encoding, transform: Option<Transform>) -> Result<(), Refusal>
        ensures { Answers self.old (append_refusal (meaning self.old) (room self.old) (meaning other.now) transform) (appended (meaning self.old) (meaning other.now) transform) result self.new }
    {
        if !is_given_finite(transform) {
            return Err(Refusal::NotFinite);
        }
        if !self.has_room_for(other) {
            return Err(Refusal::Full);
        }
        if !self.counts_stay_few(other.counts) {
            return Err(Refusal::TooMany);
        }
        let late = &other.resources;
        let patch_shift = self.patch_shift();
        let run_shift = self.run_shift(transform);
        self.path_tags.append(&other.path_tags);
        self.path_data.append(&other.path_data);
        self.draw_tags.append(&other.draw_tags);
        self.draw_data.append(&other.draw_data);
        append_mapped(
            &mut self.transforms,
            &other.transforms,
            &TransformShift { by: transform },
        );
        self.styles.append(&other.styles);
        append_mapped(&mut self.resources.patches, &late.patches, &patch_shift);
        self.resources.color_stops.append(&late.color_stops);
        self.resources.glyphs.append(&late.glyphs);
        append_mapped(&mut self.resources.glyph_runs, &late.glyph_runs, &run_shift);
        self.counts += other.counts;
        self.flags = other.flags;
        Ok(())
    }
}
