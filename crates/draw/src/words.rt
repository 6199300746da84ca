ghost use Rattle.std.specs.Prelude.{◌≡◌, from_bits, to_bits};
ghost use Rattle.std.specs.Float.{binary32};
ghost use Rattle.draw.specs.Color.{channel};

// A number from 0 to 1 as a byte: times 255, a half rounded away from zero.
pub fn channel_byte(x: f32) -> u8
    ensures { result ≡ channel x }
{
    std::num::saturating_f32_to_u8((x * 255.0).round())
}

// A number's bits; a NaN's are 7fc0_0000.
pub(crate) fn bits(x: f32) -> u32
    ensures is { result ≡ to_bits binary32 x }
    ensures back { from_bits binary32 result ≡ x }
{
    std::num::f32_to_bits_with_nan(x)
}
