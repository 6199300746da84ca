ghost use Rattle.job_text.specs.Floats.{float_from_bits, FromDecimal, FloatOf};
ghost use Rattle.std.specs.Prelude.{◌≡◌};

use crate::numerals::hex_word;
use std::num::f32_from_bits_with_nan;
use std::str;

// `x` and eight hexadecimal digits.
fn from_bits(text: &[u8]) -> Option<f32>
    ensures { result ≡ float_from_bits text.now }
{
    match text {
        // A closure: the function's name in its place gets no proof.
        [_, digits @ ..] if digits.len() == 8 => hex_word(digits).map(|bits| f32_from_bits_with_nan(
            bits,
        )),
        _ => None,
    }
}

fn from_decimal(text: &[u8]) -> Option<f32>
    ensures { FromDecimal text.now result }
{
    str::from_utf8(text).ok()?.parse().ok()
}

// A number as Rust reads it, or `x` and its bits as eight hexadecimal digits.
pub fn float(text: &[u8]) -> Option<f32>
    ensures { FloatOf text.now result }
{
    match text {
        [b'x', ..] => from_bits(text),
        _ => from_decimal(text),
    }
}
