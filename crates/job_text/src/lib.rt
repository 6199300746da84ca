// Reading the text of a job: words, names, numbers and lists.
// Nothing is asked of the bytes, and the work is in proportion to their number.
#![tactic(auto)]

mod finds;
mod flaw;
mod floats;
mod hexadecimal;
mod line;
mod name;
mod numerals;
mod parts;

pub use finds::{cut, up_to};
pub use flaw::Flaw;
pub use floats::float;
pub use hexadecimal::hex_bytes;
pub use line::Line;
pub use name::{Name, NameError};
pub use numerals::{decimal, decimal_u32, hex_word};
pub use parts::Parts;
