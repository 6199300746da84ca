use crate::style::Style;
use math::Transform;
use std::ops::AddAssign;

// How many entries each list of a scene is to have room for.
#[derive(Clone, Copy, Drop)]
pub struct Capacities {
    pub path_tags: usize,
    pub path_data: usize,
    pub draw_tags: usize,
    pub draw_data: usize,
    pub transforms: usize,
    pub styles: usize,
    pub patches: usize,
    pub color_stops: usize,
    pub glyphs: usize,
    pub glyph_runs: usize,
}

// Entries for the six streams.
#[derive(Clone, Copy, Drop)]
pub struct Streams<'a> {
    pub path_tags: &'a [u8],
    pub path_data: &'a [u32],
    pub draw_tags: &'a [u32],
    pub draw_data: &'a [u32],
    pub transforms: &'a [Transform],
    pub styles: &'a [Style],
}

// The four counts of a scene.
#[derive(Clone, Copy, Default, Drop)]
pub struct Counts {
    pub n_paths: u32,
    pub n_path_segments: u32,
    pub n_clips: u32,
    pub n_open_clips: u32,
}

impl AddAssign for Counts {
    ghost use Rattle.std.specs.Prelude.{◌≡◌};
    ghost use Rattle.records.specs.Counts.{added, Fit};

    ghost can_add_assign = { Fit };

    ghost add_assign_gives = { λ old more new. new ≡ added old more };

    fn add_assign(&mut self, more: Counts) {
        self.n_paths += more.n_paths;
        self.n_path_segments += more.n_path_segments;
        self.n_clips += more.n_clips;
        self.n_open_clips += more.n_open_clips;
    }
}
