ghost use Rattle.std.specs.Prelude.{◌≡◌};
ghost use Rattle.job_text.specs.Names.{name_byte, name_bytes, name_text};

use std::fmt;
use thiserror::Error;

// A name, with zeros after it. No name has a zero, so names are in byte order.
// No `ArrayString<32>`: an error that holds one beside a `&'static str` gets no generated proof.
#[derive(Clone, Copy, Debug, PartialEq, Eq, PartialOrd, Ord, Drop)]
pub struct Name {
    bytes: [u8; 32],
}

// A word that is no name.
#[derive(Clone, Copy, Debug, PartialEq, Eq, Drop, Error)]
#[error("a name is 1 to 32 of A-Z, a-z, 0-9, _ and -")]
pub struct NameError;

fn is_name_byte(b: u8) -> bool
    ensures { result ≡ name_byte b }
{
    b.is_ascii_alphabetic() || b.is_ascii_digit() || b == b'_' || b == b'-'
}

fn are_name_bytes(text: &[u8]) -> bool
    ensures { result ≡ name_bytes text.now }
{
    text.iter().all(|b| is_name_byte(*b))
}

fn is_name(word: &[u8]) -> bool
    ensures { result ≡ name_text word.now }
{
    1 <= word.len() && word.len() <= 32 && are_name_bytes(word)
}

impl<'a> TryFrom<&'a [u8]> for Name {
    ghost use Rattle.job_text.specs.Name.{ReadsName};

    type Error = NameError;

    ghost try_from_gives = { ReadsName };

    fn try_from(word: &'a [u8]) -> Result<Name, NameError> {
        if !is_name(word) {
            return Err(NameError);
        }
        let mut bytes = [0; 32];
        bytes[..word.len()].copy_from_slice(word);
        Ok(Name { bytes })
    }
}

impl fmt::Display for Name {
    fn fmt<W: fmt::Write>(&self, f: &mut fmt::Formatter<W>) -> fmt::Result {
        for byte in self.bytes.iter().take_while(|b| **b != 0) {
            f.write_char(char::from(*byte))?;
        }
        Ok(())
    }
}
