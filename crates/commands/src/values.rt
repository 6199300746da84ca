ghost use Rattle.std.specs.Prelude.{◌≡◌, ℕ, ◌^◌, List, Option, Some, None, MatchResult};
ghost use Rattle.std.specs.Option.{ok_or, option_map};
ghost use Rattle.job_text.specs.Floats.{FloatOf};
ghost use Rattle.job_text.specs.Numerals.{bytes_of, numeral, word_of};
ghost use Rattle.job_text.specs.declared.flaw.Flaw.TheVariants.{Form};

use job_text::{Flaw, decimal, decimal_u32, float, hex_bytes, hex_word};
use std::alloc::Global;

// What a text stands for: the value of a field, or an entry of a list.
pub(crate) trait Value: Sized {
    ghost reads: { List ℕ → Option Self → Type 0 } = { λ _ _. Unit {0} };

    fn read(heap: Global, text: &[u8]) -> Result<Self, Flaw>
        ensures { MatchResult result (λ x. reads text.now (Some x)) (λ flaw. flaw ≡ Form → reads text.now None) };
}

// A decimal number of 32 bits.
#[derive(Clone, Copy, Debug, Default, PartialEq, Eq, Drop)]
pub(crate) struct Number(pub u32);

impl Value for Number {
    ghost reads = { λ text r. option_map (λ n. n.0) r ≡ numeral 10 (2 ^ 32) text };

    fn read(_heap: Global, text: &[u8]) -> Result<Number, Flaw>
        ensures { MatchResult result (λ n. numeral 10 (2 ^ 32) text.now ≡ Some n.0) (λ flaw. (flaw ≡ Form) × (numeral 10 (2 ^ 32) text.now ≡ None)) }
    {
        decimal_u32(text).map(Number).ok_or(Flaw::Form)
    }
}

// A decimal number of 64 bits.
impl Value for u64 {
    ghost reads = { λ text r. r ≡ numeral 10 (2 ^ 64) text };

    fn read(_heap: Global, text: &[u8]) -> Result<u64, Flaw>
        ensures { result ≡ ok_or (numeral 10 (2 ^ 64) text.now) Form }
    {
        decimal(text).ok_or(Flaw::Form)
    }
}

// A word in hexadecimal digits.
impl Value for u32 {
    ghost reads = { λ text r. r ≡ word_of text };

    fn read(_heap: Global, text: &[u8]) -> Result<u32, Flaw>
        ensures { result ≡ ok_or (word_of text.now) Form }
    {
        hex_word(text).ok_or(Flaw::Form)
    }
}

impl Value for f32 {
    ghost reads = { FloatOf };

    fn read(_heap: Global, text: &[u8]) -> Result<f32, Flaw>
        ensures { MatchResult result (λ x. FloatOf text.now (Some x)) (λ flaw. (flaw ≡ Form) × FloatOf text.now None) }
    {
        float(text).ok_or(Flaw::Form)
    }
}

// Bytes, two hexadecimal digits each.
impl Value for Vec<u8> {
    ghost reads = { λ text r. option_map (λ v. v.items) r ≡ bytes_of text };

    fn read(heap: Global, text: &[u8]) -> Result<Vec<u8>, Flaw> {
        hex_bytes(heap, text)
    }
}
