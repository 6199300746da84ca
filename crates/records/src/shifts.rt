ghost use Rattle.std.specs.Prelude.{◌≡◌, ◌≤◌};
ghost use Rattle.records.specs.Moved.{under, past, moved_patch, moved_attributes, moved_run, stored_stop, SmallPatch, SmallOffsets, SmallRun};

use crate::glyph::{GlyphRun, RunAttributes, StreamOffsets};
use crate::patch::Patch;
use bounded::Mapping;
use draw::{ColorStop, StopBits};
use math::Transform;

fn placed(by: Option<Transform>, x: Transform) -> Transform
    ensures { result ≡ under by x }
{
    by.map_or(x, |t| t * x)
}

impl StreamOffsets {
    fn past(&self, base: &StreamOffsets) -> StreamOffsets
        requires own { SmallOffsets self.now }
        requires base { SmallOffsets base.now }
        ensures { result ≡ past base.now self.now }
    {
        StreamOffsets {
            path_tags: self.path_tags + base.path_tags,
            path_data: self.path_data + base.path_data,
            draw_tags: self.draw_tags + base.draw_tags,
            draw_data: self.draw_data + base.draw_data,
            transforms: self.transforms + base.transforms,
            styles: self.styles + base.styles,
        }
    }
}

impl RunAttributes {
    fn placed(&self, by: Option<Transform>) -> RunAttributes
        ensures { result ≡ moved_attributes by self.now }
    {
        RunAttributes {
            transform: placed(by, self.transform),
            ..*self
        }
    }
}

// A transform of a scene that is appended.
#[derive(Drop)]
pub struct TransformShift {
    pub by: Option<Transform>,
}

impl Mapping<Transform, Transform> for TransformShift {
    ghost fit = { λ _ _. Unit {0} };

    ghost image = { λ s x. under s.by x };

    fn map(&self, x: &Transform) -> Transform {
        placed(self.by, *x)
    }
}

// A patch of a scene that is appended, after so many draw words, stops and runs.
#[derive(Drop)]
pub struct PatchShift {
    pub words: usize,
    pub stops: usize,
    pub runs: usize,
}

impl Mapping<Patch, Patch> for PatchShift {
    ghost fit = { λ s p. (s.words ≤ 1000000) × (s.stops ≤ 1000000) × (s.runs ≤ 1000000) × SmallPatch p };

    ghost image = { λ s p. moved_patch s.words s.stops s.runs p };

    fn map(&self, x: &Patch) -> Patch {
        match *x {
            Patch::Ramp {
                draw_data_offset,
                stops_start,
                stops_end,
                extend,
            } => Patch::Ramp {
                draw_data_offset: draw_data_offset + self.words,
                stops_start: stops_start + self.stops,
                stops_end: stops_end + self.stops,
                extend,
            },
            Patch::GlyphRun { index } => Patch::GlyphRun {
                index: index + self.runs,
            },
            Patch::Image {
                draw_data_offset,
                id,
                width,
                height,
            } => Patch::Image {
                draw_data_offset: draw_data_offset + self.words,
                id,
                width,
                height,
            },
        }
    }
}

// A run of a scene that is appended, after streams of those lengths and so many glyphs.
#[derive(Drop)]
pub struct RunShift {
    pub by: Option<Transform>,
    pub base: StreamOffsets,
    pub glyphs: usize,
}

impl Mapping<GlyphRun, GlyphRun> for RunShift {
    ghost fit = { λ s r. SmallOffsets s.base × (s.glyphs ≤ 1000000) × SmallRun r };

    ghost image = { λ s r. moved_run s.by s.base s.glyphs r };

    fn map(&self, x: &GlyphRun) -> GlyphRun {
        GlyphRun {
            attributes: x.attributes.placed(self.by),
            glyphs_start: x.glyphs_start + self.glyphs,
            glyphs_end: x.glyphs_end + self.glyphs,
            stream_offsets: x.stream_offsets.past(&self.base),
        }
    }
}

// A stop of a gradient, as a scene stores it.
#[derive(Drop)]
pub struct StopFade {
    pub alpha: f32,
}

impl Mapping<ColorStop, StopBits> for StopFade {
    ghost fit = { λ _ _. Unit {0} };

    ghost image = { λ s x. stored_stop s.alpha x };

    fn map(&self, x: &ColorStop) -> StopBits {
        StopBits::from(x.multiply_alpha(self.alpha))
    }
}
