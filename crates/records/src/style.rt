// A fill or stroke style, as two words.
#[derive(Clone, Copy, Drop)]
pub struct Style {
    pub flags_and_miter_limit: u32,
    pub line_width: u32,
}
