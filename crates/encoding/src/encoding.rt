ghost use Rattle.std.specs.Prelude.{◌≤◌};
ghost use Rattle.bounded.specs.Held.{items, len};
ghost use Rattle.encoding.specs.Shape.{Lies, Turns, Rises, start};

use bounded::BoundedVec;
use draw::StopBits;
use math::Transform;
use records::{Counts, Glyph, GlyphRun, Patch, StreamOffsets, Style};

// Encoded data for late bound resources.
#[derive(Drop)]
pub struct Resources {
    // Draw data patches for late bound resources.
    pub(crate) patches: BoundedVec<Patch>,
    // Color stop collection for gradients.
    pub(crate) color_stops: BoundedVec<StopBits>,
    // Positioned glyph buffer.
    pub(crate) glyphs: BoundedVec<Glyph>,
    // Sequences of glyphs.
    pub(crate) glyph_runs: BoundedVec<GlyphRun>,
}

// Encoded data streams for a scene.
#[derive(Drop)]
pub struct Encoding {
    // The path tag stream.
    pub(crate) path_tags: BoundedVec<u8>,
    // The path data stream.
    pub(crate) path_data: BoundedVec<u32>,
    // The draw tag stream.
    pub(crate) draw_tags: BoundedVec<u32>,
    // The draw data stream.
    pub(crate) draw_data: BoundedVec<u32>,
    // The transform stream.
    pub(crate) transforms: BoundedVec<Transform>,
    // The style stream.
    pub(crate) styles: BoundedVec<Style>,
    // Late bound resource data.
    pub(crate) resources: Resources,
    // Numbers of paths, path segments, clips and unclosed clips.
    pub(crate) counts: Counts,
    // Flags that capture the current state of the encoding.
    pub(crate) flags: u32,
    ghost few: { (counts.n_paths ≤ 1000000) × (counts.n_path_segments ≤ 1000000) × (counts.n_clips ≤ 1000000) × (counts.n_open_clips ≤ 1000000) },
    ghost patched: { ∥ Lies (len draw_data) (len resources.color_stops) 0 (items resources.patches) ∥₁ },
    ghost turned: { ∥ Turns (len resources.glyph_runs) 0 (items resources.patches) ∥₁ },
    ghost recorded: { ∥ Rises (record { path_tags = len path_tags; path_data = len path_data; draw_tags = len draw_tags; draw_data = len draw_data; transforms = len transforms; styles = len styles }) (len resources.glyphs) start (items resources.glyph_runs) ∥₁ },
}
