ghost use Rattle.std.specs.Prelude.{◌≡◌, ◌≤◌, length};
ghost use Rattle.encoding.specs.Scene.{meaning, counts_of};

use crate::encoding::Encoding;
use draw::StopBits;
use math::Transform;
use records::{Counts, Glyph, GlyphRun, Patch, Style};

impl Encoding {
    pub fn path_tags(&self) -> &[u8]
        ensures { result.now ≡ (meaning self.now).path_tags }
    {
        self.path_tags.as_slice()
    }

    pub fn path_data(&self) -> &[u32]
        ensures { result.now ≡ (meaning self.now).path_data }
    {
        self.path_data.as_slice()
    }

    pub fn draw_tags(&self) -> &[u32]
        ensures { result.now ≡ (meaning self.now).draw_tags }
    {
        self.draw_tags.as_slice()
    }

    pub fn draw_data(&self) -> &[u32]
        ensures { result.now ≡ (meaning self.now).draw_data }
    {
        self.draw_data.as_slice()
    }

    pub fn transforms(&self) -> &[Transform]
        ensures { result.now ≡ (meaning self.now).transforms }
    {
        self.transforms.as_slice()
    }

    pub fn styles(&self) -> &[Style]
        ensures { result.now ≡ (meaning self.now).styles }
    {
        self.styles.as_slice()
    }

    pub fn patches(&self) -> &[Patch]
        ensures { result.now ≡ (meaning self.now).patches }
    {
        self.resources.patches.as_slice()
    }

    pub fn color_stops(&self) -> &[StopBits]
        ensures { result.now ≡ (meaning self.now).stops }
    {
        self.resources.color_stops.as_slice()
    }

    pub fn glyphs(&self) -> &[Glyph]
        ensures { result.now ≡ (meaning self.now).glyphs }
    {
        self.resources.glyphs.as_slice()
    }

    pub fn glyph_runs(&self) -> &[GlyphRun]
        ensures { result.now ≡ (meaning self.now).runs }
    {
        self.resources.glyph_runs.as_slice()
    }

    pub fn counts(&self) -> Counts
        ensures { result ≡ counts_of (meaning self.now) }
    {
        self.counts
    }

    pub fn flags(&self) -> u32
        ensures { result ≡ (meaning self.now).flags }
    {
        self.flags
    }
}
