use crate::unit::{is_in_unit, is_side};
use draw::channel_byte;

// A picture by its id, with its sides in pixels and the kinds of its pixels and its alpha.
#[derive(Clone, Copy, Drop)]
pub struct Image {
    pub id: u64,
    pub width: u32,
    pub height: u32,
    // Numbers and no enums, since `encode_image` takes any and refuses what stands for no kind.
    pub format: u32,
    pub alpha_type: u32,
}

// How a picture is sampled.
#[derive(Clone, Copy, Drop)]
pub struct ImageSampler {
    // Numbers and no enums, as in Image.
    pub x_extend: u32,
    pub y_extend: u32,
    pub quality: u32,
    pub alpha: f32,
}

impl Image {
    ghost use Rattle.std.specs.Prelude.{◌≡◌, true};
    ghost use Rattle.records.specs.Unit.{image_in_range, sampler_in_range, Sides};
    ghost use Rattle.records.specs.Words.{sides_word, sampler_word};

    pub fn is_in_range(&self) -> bool
        ensures value { result ≡ image_in_range self.now }
        ensures sides { result ≡ true → Sides self.now }
    {
        is_side(self.width) && is_side(self.height) && self.format <= 1 && self.alpha_type <= 1
    }

    // Packed image dimensions.
    pub fn width_height(&self) -> u32
        requires { image_in_range self.now ≡ true }
        ensures { result ≡ sides_word self.now }
    {
        self.width * 65536 + self.height
    }

    // Packed format, alpha type, quality, extends and 8-bit alpha.
    pub fn sample_alpha(&self, sampler: &ImageSampler, alpha: f32) -> u32
        requires image { image_in_range self.now ≡ true }
        requires sampler { sampler_in_range sampler.now ≡ true }
        ensures { result ≡ sampler_word self.now sampler.now alpha }
    {
        self.format * 0x8000
            + self.alpha_type * 0x4000
            + sampler.quality * 0x1000
            + sampler.x_extend * 0x400
            + sampler.y_extend * 0x100
            + channel_byte(sampler.alpha * alpha) as u32
    }
}

impl ImageSampler {
    ghost use Rattle.std.specs.Prelude.{◌≡◌};
    ghost use Rattle.records.specs.Unit.{sampler_in_range};

    pub fn is_in_range(&self) -> bool
        ensures { result ≡ sampler_in_range self.now }
    {
        self.x_extend <= 2 && self.y_extend <= 2 && self.quality <= 2 && is_in_unit(self.alpha)
    }
}
