use math::Transform;

// A glyph with its position.
#[derive(Clone, Copy, Drop)]
pub struct Glyph {
    pub id: u32,
    pub x: f32,
    pub y: f32,
}

// Lengths of the six streams at one moment.
#[derive(Clone, Copy, Drop)]
pub struct StreamOffsets {
    pub path_tags: usize,
    pub path_data: usize,
    pub draw_tags: usize,
    pub draw_data: usize,
    pub transforms: usize,
    pub styles: usize,
}

// What all glyphs of a run are drawn with.
#[derive(Clone, Copy, Drop)]
pub struct RunAttributes {
    pub font: u32,
    pub style: u32,
    pub font_size: f32,
    pub transform: Transform,
    // applied to each glyph before its position
    pub glyph_transform: Option<Transform>,
    pub brush_transform: Option<Transform>,
}

// A sequence of glyphs, and where in the streams their outlines go.
#[derive(Clone, Copy, Drop)]
pub struct GlyphRun {
    pub attributes: RunAttributes,
    pub glyphs_start: usize,
    pub glyphs_end: usize,
    pub stream_offsets: StreamOffsets,
}
