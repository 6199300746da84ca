ghost use Rattle.std.specs.Prelude.{◌≡◌, true, ◌&&◌};
ghost use Rattle.std.specs.Float.{float_is_finite};
ghost use Rattle.records.specs.Unit.{in_unit, image_in_range, sampler_in_range, Sides};
ghost use Rattle.encoding.specs.Scene.{meaning, room};
ghost use Rattle.encoding.specs.Answer.{Answers};
ghost use Rattle.encoding.specs.Drawn.{pictured, image_spacious, image_refusal};

use crate::encoding::Encoding;
use draw::DrawTag;
use records::{Image, ImageSampler, Patch, Refusal, is_in_unit};

fn is_finite(sampler: &ImageSampler, alpha: f32) -> bool
    ensures { result ≡ (float_is_finite sampler.now.alpha && float_is_finite alpha) }
{
    sampler.alpha.is_finite() && alpha.is_finite()
}

fn is_in_range(image: &Image, sampler: &ImageSampler, alpha: f32) -> bool
    ensures value { result ≡ (image_in_range image.now && sampler_in_range sampler.now && in_unit alpha) }
    ensures image { result ≡ true → image_in_range image.now ≡ true }
    ensures sampler { result ≡ true → sampler_in_range sampler.now ≡ true }
    ensures sides { result ≡ true → Sides image.now }
{
    image.is_in_range() && sampler.is_in_range() && is_in_unit(alpha)
}

impl Encoding {
    fn has_room_for_image(&self) -> bool
        ensures { result ≡ image_spacious (meaning self.now) (room self.now) }
    {
        self.draw_tags.has_room(1)
            && self.draw_data.has_room(3)
            && self.resources.patches.has_room(1)
    }

    // Encodes an image brush.
    pub fn encode_image(
        &mut self,
        image: Image,
        sampler: ImageSampler,
        alpha: f32,
    ) -> Result<(), Refusal>
        ensures { Answers self.old (image_refusal (meaning self.old) (room self.old) image sampler alpha) (pictured (meaning self.old) image sampler alpha) result self.new }
    {
        if !is_finite(&sampler, alpha) {
            return Err(Refusal::NotFinite);
        }
        if !is_in_range(&image, &sampler, alpha) {
            return Err(Refusal::OutOfRange);
        }
        if !self.has_room_for_image() {
            return Err(Refusal::Full);
        }
        self.resources.patches.push(Patch::Image {
            draw_data_offset: self.draw_data.len(),
            id: image.id,
            width: image.width,
            height: image.height,
        });
        self.draw_tags.push(DrawTag::IMAGE);
        self.draw_data.extend_from_slice(&[
            0,
            image.width_height(),
            image.sample_alpha(&sampler, alpha),
        ]);
        Ok(())
    }
}
