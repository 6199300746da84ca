// A list that is made whole, with room for a number of entries that it never passes.
#![tactic(auto)]

mod bounded_vec;
mod mapping;

pub use bounded_vec::BoundedVec;
pub use mapping::{Mapping, append_mapped, extend_mapped};
