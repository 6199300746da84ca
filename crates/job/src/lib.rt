// Running a job: its lines in order, each command's answer as a line of text.
#![tactic(auto)]

mod failure;
mod lines;
mod outcome;
mod packed;
mod run;
mod runner;
mod separated;
mod session;
mod shown;
mod summary;

pub use failure::{Failure, Refused};
pub use lines::Lines;
pub use outcome::Outcome;
pub use packed::Packed;
pub use runner::{Fault, Runner};
pub use session::Session;
pub use shown::Shown;
pub use summary::Summary;
