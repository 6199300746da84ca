// Little-endian writers into a lent buffer, which they fill in one pass.
#![tactic(auto)]

mod entry;
mod writer;

pub use entry::Entry;
pub use writer::Writer;
