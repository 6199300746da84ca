ghost use Rattle.std.specs.Prelude.{◌≡◌, Some, None, MatchResult};
ghost use Rattle.job_text.specs.Numerals.{bytes_of};
ghost use Rattle.job_text.specs.declared.flaw.Flaw.TheVariants.{Form};

use crate::flaw::Flaw;
use std::alloc::Global;

// Bytes, two hexadecimal digits each.
#[tactic(auto, using(crate::proofs::Pairs::odd))]
pub fn hex_bytes(heap: Global, text: &[u8]) -> Result<Vec<u8>, Flaw>
    ensures { MatchResult result (λ v. bytes_of text.now ≡ Some v.items) (λ f. f ≡ Form → bytes_of text.now ≡ None) }
{
    // Room first, so that want of memory is told before a flaw of the form.
    let mut bytes = Vec::with_capacity(heap, text.len() / 2)?;
    if text.len() % 2 == 1 {
        return Err(Flaw::Form);
    }
    bytes.resize(text.len() / 2, 0)?;
    hex::decode_to_slice(text, bytes.as_mut_slice())?;
    Ok(bytes)
}
