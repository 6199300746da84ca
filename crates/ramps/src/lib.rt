// Gradient rows: which row each gradient of a page has, and the sheet of the rows' samples.
#![tactic(auto)]

mod fault;
mod key;
mod ramp_cache;
mod rows;

pub use fault::RampFault;
pub use ramp_cache::{RampCache, Ramps, SHEET_LEN};
pub use rows::Rows;
