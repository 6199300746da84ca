use crate::words::{bits, channel_byte};
use std::num::f32_from_bits_with_nan;

// A colour with its alpha apart, each number from 0 to 1.
#[derive(Clone, Copy, Default, Drop)]
pub struct Color {
    pub r: f32,
    pub g: f32,
    pub b: f32,
    pub a: f32,
}

// A colour at an offset along a gradient.
#[derive(Clone, Copy, Default, Drop)]
pub struct ColorStop {
    pub offset: f32,
    pub color: Color,
}

// A stop bit by bit. Stops are stored so, since all comparisons of them are bitwise.
#[derive(Clone, Copy, Debug, Default, PartialEq, Eq, Hash)]
pub struct StopBits {
    pub offset: u32,
    pub r: u32,
    pub g: u32,
    pub b: u32,
    pub a: u32,
}

impl Color {
    ghost use Rattle.std.specs.Prelude.{◌≡◌};
    ghost use Rattle.draw.specs.Color.{color_word};

    // The premultiplied colour as a word, red lowest and alpha highest.
    // No From, since rounding to bytes loses some of it.
    pub fn to_word(self) -> u32
        ensures { result ≡ color_word self }
    {
        u32::from_le_bytes([
            channel_byte(self.r * self.a),
            channel_byte(self.g * self.a),
            channel_byte(self.b * self.a),
            channel_byte(self.a),
        ])
    }
}

impl ColorStop {
    ghost use Rattle.std.specs.Prelude.{◌≡◌};
    ghost use Rattle.draw.specs.Color.{faded};

    // The stop with its alpha multiplied by `alpha`, unless that is 1.
    pub fn multiply_alpha(self, alpha: f32) -> ColorStop
        ensures { result ≡ faded alpha self }
    {
        if alpha == 1.0 {
            return self;
        }
        let c = self.color;
        ColorStop {
            color: Color {
                a: c.a * alpha,
                ..c
            },
            ..self
        }
    }
}

impl From<ColorStop> for StopBits {
    ghost use Rattle.draw.specs.Color.{IsBitsOf};

    ghost from_gives = { IsBitsOf };

    fn from(stop: ColorStop) -> StopBits {
        StopBits {
            offset: bits(stop.offset),
            r: bits(stop.color.r),
            g: bits(stop.color.g),
            b: bits(stop.color.b),
            a: bits(stop.color.a),
        }
    }
}

impl From<StopBits> for ColorStop {
    ghost use Rattle.std.specs.Prelude.{◌≡◌};
    ghost use Rattle.draw.specs.Color.{stop_of};

    ghost from_gives = { λ b s. s ≡ stop_of b };

    fn from(bits: StopBits) -> ColorStop {
        ColorStop {
            offset: f32_from_bits_with_nan(bits.offset),
            color: Color {
                r: f32_from_bits_with_nan(bits.r),
                g: f32_from_bits_with_nan(bits.g),
                b: f32_from_bits_with_nan(bits.b),
                a: f32_from_bits_with_nan(bits.a),
            },
        }
    }
}
