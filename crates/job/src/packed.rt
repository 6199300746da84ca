use crate::separated::write_separated;
use page::Layout;
use std::fmt;

// What a pack answers: the page's length and layout, and checksums of the page and of what lies behind it.
#[derive(Clone, Copy, Drop)]
pub struct Packed {
    pub length: usize,
    pub layout: Layout,
    pub page: u32,
    pub rest: u32,
}

impl fmt::Display for Packed {
    fn fmt<W: fmt::Write>(&self, f: &mut fmt::Formatter<W>) -> fmt::Result {
        let layout = self.layout;
        let numbers = [
            layout.n_draw_objects,
            layout.n_paths,
            layout.n_clips,
            layout.bin_data_start,
            layout.path_tag_base,
            layout.path_data_base,
            layout.draw_tag_base,
            layout.draw_data_base,
            layout.transform_base,
            layout.style_base,
        ];
        write!(f, "length={} layout=", self.length)?;
        write_separated(numbers.iter(), ",", f)?;
        write!(f, " page={:08x} rest={:08x}", self.page, self.rest)
    }
}
