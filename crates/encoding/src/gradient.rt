ghost use Rattle.std.specs.Prelude.{◌≡◌, ◌≤◌, true, ◌&&◌, length, nat_le};
ghost use Rattle.std.specs.List.{list_all};
ghost use Rattle.records.specs.Finite.{stop_finite};
ghost use Rattle.records.specs.Unit.{in_unit, stop_in_unit};
ghost use Rattle.encoding.specs.Scene.{meaning, room};
ghost use Rattle.encoding.specs.Answer.{Answers, asked};
ghost use Rattle.encoding.specs.Drawn.{colored, color_spacious, ramped, ramp_spacious, graded, gradient_finite, gradient_refusal};

use crate::encoding::Encoding;
use bounded::extend_mapped;
use draw::{ColorStop, DrawTag};
use records::{
    DrawLinearGradient, Extend, Patch, Refusal, StopFade, is_in_unit, is_stop_finite,
    is_stop_in_unit,
};
use std::num::f32_to_bits_with_nan;

fn are_finite(color_stops: &[ColorStop]) -> bool
    ensures { result ≡ list_all stop_finite color_stops.now }
{
    color_stops.iter().all(|s| is_stop_finite(s))
}

fn are_in_unit(color_stops: &[ColorStop]) -> bool
    ensures { result ≡ list_all stop_in_unit color_stops.now }
{
    color_stops.iter().all(|s| is_stop_in_unit(s))
}

fn is_finite(gradient: &DrawLinearGradient, color_stops: &[ColorStop], alpha: f32) -> bool
    ensures { result ≡ gradient_finite gradient.now color_stops.now alpha }
{
    gradient.is_finite() && alpha.is_finite() && are_finite(color_stops)
}

fn is_in_range(color_stops: &[ColorStop], alpha: f32) -> bool
    ensures few { result ≡ true → length color_stops.now ≤ 16 }
    ensures value { result ≡ (nat_le (length color_stops.now) 16 && in_unit alpha && list_all stop_in_unit color_stops.now) }
{
    color_stops.len() <= 16 && is_in_unit(alpha) && are_in_unit(color_stops)
}

impl Encoding {
    // Encodes a solid color brush.
    fn encode_color(&mut self, rgba: u32) -> Result<(), Refusal>
        ensures { Answers self.old (asked true true (color_spacious (meaning self.old) (room self.old)) true) (colored (meaning self.old) rgba) result self.new }
    {
        if !(self.draw_tags.has_room(1) && self.draw_data.has_room(1)) {
            return Err(Refusal::Full);
        }
        self.draw_tags.push(DrawTag::COLOR);
        self.draw_data.push(rgba);
        Ok(())
    }

    fn has_room_for_ramp(&self, n: usize) -> bool
        ensures { result ≡ ramp_spacious (meaning self.now) (room self.now) n }
    {
        self.draw_tags.has_room(1)
            && self.draw_data.has_room(5)
            && self.resources.patches.has_room(1)
            && self.resources.color_stops.has_room(n)
    }

    // Adds a gradient of two stops or more, whose word is bound late.
    fn add_ramp(
        &mut self,
        gradient: DrawLinearGradient,
        color_stops: &[ColorStop],
        alpha: f32,
        extend: Extend,
    ) -> Result<(), Refusal>
        requires { (2 ≤ length color_stops.now) × (length color_stops.now ≤ 16) }
        ensures { Answers self.old (asked true true (ramp_spacious (meaning self.old) (room self.old) (length color_stops.now)) true) (ramped (meaning self.old) gradient color_stops.now alpha extend) result self.new }
    {
        if !self.has_room_for_ramp(color_stops.len()) {
            return Err(Refusal::Full);
        }
        let stops_start = self.resources.color_stops.len();
        self.resources.patches.push(Patch::Ramp {
            draw_data_offset: self.draw_data.len(),
            stops_start,
            stops_end: stops_start + color_stops.len(),
            extend,
        });
        extend_mapped(
            &mut self.resources.color_stops,
            color_stops,
            &StopFade { alpha },
        );
        self.draw_tags.push(DrawTag::LINEAR_GRADIENT);
        self.draw_data.extend_from_slice(&[
            0,
            f32_to_bits_with_nan(gradient.p0[0]),
            f32_to_bits_with_nan(gradient.p0[1]),
            f32_to_bits_with_nan(gradient.p1[0]),
            f32_to_bits_with_nan(gradient.p1[1]),
        ]);
        Ok(())
    }

    // Encodes a linear gradient brush: a color where there are fewer than two stops.
    // `extend` is a number and no `Extend`, since the call takes any and refuses what stands for none.
    pub fn encode_linear_gradient(
        &mut self,
        gradient: DrawLinearGradient,
        color_stops: &[ColorStop],
        alpha: f32,
        extend: u32,
    ) -> Result<(), Refusal>
        ensures { Answers self.old (gradient_refusal (meaning self.old) (room self.old) gradient color_stops.now alpha extend) (graded (meaning self.old) gradient color_stops.now alpha extend) result self.new }
    {
        if !is_finite(&gradient, color_stops, alpha) {
            return Err(Refusal::NotFinite);
        }
        if !is_in_range(color_stops, alpha) {
            return Err(Refusal::OutOfRange);
        }
        let extend = Extend::try_from(extend)?;
        match color_stops {
            [] => self.encode_color(0),
            [stop] => self.encode_color(stop.multiply_alpha(alpha).color.to_word()),
            _ => self.add_ramp(gradient, color_stops, alpha, extend),
        }
    }
}
