use crc::{Crc32, checksum};
use draw::StopBits;
use math::Transform;
use records::{Glyph, Style};
use std::fmt;
use std::num::f32_to_bits_with_nan;

// How many entries a list has, and the checksum of their little-endian bytes.
#[derive(Clone, Copy, Drop)]
pub struct Summary {
    pub len: usize,
    pub crc: u32,
}

// An entry that a checksum is fed with. Not byte_writers' `Entry`: that needs a buffer as wide as an entry.
pub(crate) trait Summed {
    fn feed(&self, crc: &mut Crc32);
}

impl Summed for u32 {
    fn feed(&self, crc: &mut Crc32) {
        crc.update_word(*self);
    }
}

impl Summed for f32 {
    fn feed(&self, crc: &mut Crc32) {
        crc.update_word(f32_to_bits_with_nan(*self));
    }
}

impl Summed for Transform {
    fn feed(&self, crc: &mut Crc32) {
        for x in self.matrix.iter().chain(self.translation.iter()) {
            x.feed(crc);
        }
    }
}

impl Summed for Style {
    fn feed(&self, crc: &mut Crc32) {
        self.flags_and_miter_limit.feed(crc);
        self.line_width.feed(crc);
    }
}

impl Summed for StopBits {
    fn feed(&self, crc: &mut Crc32) {
        for word in [self.offset, self.r, self.g, self.b, self.a] {
            word.feed(crc);
        }
    }
}

impl Summed for Glyph {
    fn feed(&self, crc: &mut Crc32) {
        self.id.feed(crc);
        self.x.feed(crc);
        self.y.feed(crc);
    }
}

impl Summary {
    pub fn of_bytes(bytes: &[u8]) -> Summary {
        Summary {
            len: bytes.len(),
            crc: checksum(bytes),
        }
    }

    pub(crate) fn of<T: Summed>(entries: &[T]) -> Summary {
        let mut crc = Crc32::new();
        for entry in entries {
            entry.feed(&mut crc);
        }
        Summary {
            len: entries.len(),
            crc: crc.finish(),
        }
    }
}

impl fmt::Display for Summary {
    fn fmt<W: fmt::Write>(&self, f: &mut fmt::Formatter<W>) -> fmt::Result {
        write!(f, "{}:{:08x}", self.len, self.crc)
    }
}
