ghost use Rattle.std.specs.Prelude.{◌≡◌, ◌≤◌, length, take, drop};
ghost use Rattle.std.specs.Option.{option_map};
ghost use Rattle.job_text.specs.Words.{run_of, up_to, past_first};

// How often `byte` stands at the front.
pub(crate) fn run_of(byte: u8, text: &[u8]) -> usize
    ensures value { result ≡ run_of byte text.now }
    ensures bound { result ≤ length text.now }
{
    text.iter().take_while(|b| **b == byte).count()
}

// How much stands before the first `byte`.
pub fn up_to(byte: u8, text: &[u8]) -> usize
    ensures value { result ≡ up_to byte text.now }
    ensures bound { result ≤ length text.now }
{
    text.iter().take_while(|b| **b != byte).count()
}

// What stands before the first `byte`, and what follows it if there is one.
pub fn cut(byte: u8, text: &[u8]) -> (&[u8], Option<&[u8]>)
    ensures front { result.0.now ≡ take (up_to byte text.now) text.now }
    ensures back { option_map (λ x. x.now) result.1 ≡ past_first (drop (up_to byte text.now) text.now) }
{
    let (front, rest) = text.split_at(up_to(byte, text));
    (front, rest.split_first().map(|(_, back)| back))
}
