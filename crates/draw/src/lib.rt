// Draw and path tags, colours and their words, and the stops and samples of gradients.
#![tactic(auto)]

mod color;
mod laws;
mod ramp;
mod tags;
mod words;

pub use color::{Color, ColorStop, StopBits};
pub use laws::ramp_laws;
pub use ramp::{N_SAMPLES, color_at, sample, write_row};
pub use tags::{DrawTag, PathTag};
pub use words::channel_byte;
