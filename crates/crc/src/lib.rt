// CRC-32, the checksum of zlib and PNG.
#![tactic(auto)]

mod sums;
mod table;

pub use sums::{Crc32, checksum};
