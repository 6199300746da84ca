use records::Style;

// The outline of a glyph, lent by its supply.
#[derive(Clone, Copy)]
pub struct Outline<'a> {
    pub tags: &'a [u8],
    pub words: &'a [u32],
    pub styles: &'a [Style],
}
