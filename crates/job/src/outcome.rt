use crate::packed::Packed;
use crate::shown::Shown;
use crate::summary::Summary;
use std::fmt;

// What a command that was done answers.
#[derive(Clone, Copy, Drop)]
pub enum Outcome<'a> {
    Done,
    Shown(Shown<'a>),
    Packed(Packed),
    Viewed(Summary),
}

impl fmt::Display for Outcome<'_> {
    fn fmt<W: fmt::Write>(&self, f: &mut fmt::Formatter<W>) -> fmt::Result {
        match self {
            Outcome::Done => f.write_str("ok"),
            Outcome::Shown(shown) => write!(f, "ok {shown}"),
            Outcome::Packed(packed) => write!(f, "ok {packed}"),
            Outcome::Viewed(part) => write!(f, "ok length={} bytes={:08x}", part.len, part.crc),
        }
    }
}
