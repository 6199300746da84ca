// A list of at most `N` items in fixed memory.
#![tactic(auto)]

mod fixed_vec;

pub use fixed_vec::FixedVec;
