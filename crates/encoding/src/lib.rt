// A scene: six streams, the resources that are bound late, counts and flags, and the calls that build it.
#![tactic(auto)]

mod append;
mod encoding;
mod glyph_run;
mod gradient;
mod image;
mod lay;
mod make;
mod reads;

pub use bounded::BoundedVec;
pub use encoding::{Encoding, Resources};
pub use records::{
    Capacities, Counts, DrawLinearGradient, Extend, Glyph, GlyphRun, Image, ImageSampler, Patch,
    Refusal, RunAttributes, StreamOffsets, Streams, Style,
};
