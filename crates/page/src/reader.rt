ghost use Rattle.std.specs.Prelude.{length};
ghost use Rattle.page.specs.Parts.{Rising};

use crate::layout::Layout;
use crate::refusal::Misplaced;

// A packed page with its layout, which hands out the parts between two bases.
#[derive(Clone, Copy)]
pub struct PageReader<'a> {
    pub(crate) data: &'a [u8],
    pub(crate) layout: Layout,
    ghost rising: { Rising (length «data».now) layout },
}

impl<'a> PageReader<'a> {
    ghost use Rattle.std.specs.Prelude.{◌≡◌, ◌*◌, ◌≤◌};
    ghost use Rattle.page.specs.Parts.{part as part_of, path_tags_part, path_data_part, draw_tags_part, draw_data_part, transforms_part, styles_part};
    ghost use Rattle.page.specs.Opened.{opened, reader_of};

    // A reader of `data`, if the bases of `layout` never fall and end inside it.
    pub fn new(data: &'a [u8], layout: Layout) -> Result<PageReader<'a>, Misplaced>
        ensures { opened result ≡ reader_of «data».now layout }
    {
        if layout.path_tag_base <= layout.path_data_base
            && layout.path_data_base <= layout.draw_tag_base
            && layout.draw_tag_base <= layout.draw_data_base
            && layout.draw_data_base <= layout.transform_base
            && layout.transform_base <= layout.style_base
            && 4 * layout.style_base as usize <= data.len()
        {
            Ok(PageReader { data, layout })
        } else {
            Err(Misplaced)
        }
    }

    // The bytes from word `start` to word `end`.
    fn part(&self, start: u32, end: u32) -> &'a [u8]
        requires rising { start ≤ end }
        requires inside { 4 * end ≤ length self.now.«data».now }
        ensures { result.now ≡ part_of self.now.«data».now start end }
    {
        &self.data[4 * start as usize..4 * end as usize]
    }

    // Returns the path tag stream.
    pub fn path_tags(&self) -> &'a [u8]
        ensures { result.now ≡ path_tags_part self.now.«data».now self.now.layout }
    {
        self.part(self.layout.path_tag_base, self.layout.path_data_base)
    }

    // Returns the path data stream.
    pub fn path_data(&self) -> &'a [u8]
        ensures { result.now ≡ path_data_part self.now.«data».now self.now.layout }
    {
        self.part(self.layout.path_data_base, self.layout.draw_tag_base)
    }

    // Returns the draw tag stream.
    pub fn draw_tags(&self) -> &'a [u8]
        ensures { result.now ≡ draw_tags_part self.now.«data».now self.now.layout }
    {
        self.part(self.layout.draw_tag_base, self.layout.draw_data_base)
    }

    // Returns the draw data stream.
    pub fn draw_data(&self) -> &'a [u8]
        ensures { result.now ≡ draw_data_part self.now.«data».now self.now.layout }
    {
        self.part(self.layout.draw_data_base, self.layout.transform_base)
    }

    // Returns the transform stream.
    pub fn transforms(&self) -> &'a [u8]
        ensures { result.now ≡ transforms_part self.now.«data».now self.now.layout }
    {
        self.part(self.layout.transform_base, self.layout.style_base)
    }

    // Returns the style stream, which goes to the end of the data.
    pub fn styles(&self) -> &'a [u8]
        ensures { result.now ≡ styles_part self.now.«data».now self.now.layout }
    {
        &self.data[4 * self.layout.style_base as usize..]
    }
}
