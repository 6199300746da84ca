ghost use Rattle.std.specs.Prelude.{◌≡◌, ℕ, List, [], bit_xor};
ghost use Rattle.crc.specs.Crc.{fed_byte, fed, word_bytes, crc_of};
ghost use Rattle.crc.specs.Sums.{Seen, Adds, Published};

use crate::table::entry;

// The checksum of the bytes that it was fed.
#[derive(Clone, Copy, Drop)]
pub struct Crc32 {
    state: u32,
}

// The state after one byte more.
fn next(state: u32, byte: u8) -> u32
    ensures { result ≡ fed_byte state byte }
{
    (state / 256) ^ entry(0, ((state ^ byte as u32) % 256) as u8)
}

// The state after eight bytes more.
fn next_eight(state: u32, b: &[u8; 8]) -> u32
    ensures { result ≡ fed state b.now }
{
    let x = (state ^ u32::from_le_bytes([b[0], b[1], b[2], b[3]])).to_le_bytes();
    let first = entry(7, x[0]) ^ entry(6, x[1]) ^ entry(5, x[2]) ^ entry(4, x[3]);
    first ^ entry(3, b[4]) ^ entry(2, b[5]) ^ entry(1, b[6]) ^ entry(0, b[7])
}

impl Crc32 {
    pub fn new() -> Crc32
        ensures { Seen result [] }
    {
        Crc32 { state: 0xffff_ffff }
    }

    pub fn update(&mut self, bytes: &[u8])
        ensures state { self.new.state ≡ fed self.old.state bytes.now }
        ensures seen { Adds self.old bytes.now self.new }
    {
        let (eights, rest) = bytes.as_chunks::<8>();
        let state = eights.iter().fold(self.state, next_eight);
        self.state = rest.iter().fold(state, |state, byte| next(state, *byte));
    }

    // The word's four bytes, little-endian.
    pub fn update_word(&mut self, word: u32)
        ensures state { self.new.state ≡ fed self.old.state (word_bytes word) }
        ensures seen { Adds self.old (word_bytes word) self.new }
    {
        self.update(&word.to_le_bytes());
    }

    pub fn finish(&self) -> u32
        ensures value { result ≡ bit_xor self.now.state 0xffff_ffff }
        ensures seen { (bytes : List ℕ) → Seen self.now bytes → result ≡ crc_of bytes }
    {
        self.state ^ 0xffff_ffff
    }
}

// The checksum of some bytes.
pub fn checksum(bytes: &[u8]) -> u32
    ensures is { result ≡ crc_of bytes.now }
    ensures published { Published }
{
    let mut crc = Crc32::new();
    crc.update(bytes);
    crc.finish()
}
