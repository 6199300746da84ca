ghost use Rattle.std.specs.Prelude.{◌≡◌, ◌^◌, ◌≤◌};
ghost use Rattle.job_text.specs.Numerals.{numeral, word_of};

fn digits(text: &[u8], base: u32) -> Option<u64>
    requires least { 2 ≤ base }
    requires most { base ≤ 16 }
    ensures { result ≡ numeral base (2 ^ 64) text.now }
{
    if text.is_empty() {
        return None;
    }
    let mut n = 0u64;
    for b in text {
        let digit = char::from(*b).to_digit(base)?;
        n = n
            .checked_mul(u64::from(base))?
            .checked_add(u64::from(digit))?;
    }
    Some(n)
}

// A decimal number without sign, of 64 bits.
pub fn decimal(text: &[u8]) -> Option<u64>
    ensures { result ≡ numeral 10 (2 ^ 64) text.now }
{
    digits(text, 10)
}

// A decimal number without sign, of 32 bits.
pub fn decimal_u32(text: &[u8]) -> Option<u32>
    ensures { result ≡ numeral 10 (2 ^ 32) text.now }
{
    u32::try_from(decimal(text)?).ok()
}

// A word: one to eight hexadecimal digits.
pub fn hex_word(text: &[u8]) -> Option<u32>
    ensures { result ≡ word_of text.now }
{
    if text.len() > 8 {
        return None;
    }
    u32::try_from(digits(text, 16)?).ok()
}
