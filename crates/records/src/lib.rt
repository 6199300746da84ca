// The records of a scene, and what may be asked of each before it goes into one.
#![tactic(auto)]

mod finite;
mod glyph;
mod image;
mod patch;
mod refusal;
mod scene;
mod shifts;
mod style;
mod unit;

pub use finite::{is_given_finite, is_stop_finite};
pub use glyph::{Glyph, GlyphRun, RunAttributes, StreamOffsets};
pub use image::{Image, ImageSampler};
pub use patch::{DrawLinearGradient, Extend, Patch};
pub use refusal::Refusal;
pub use scene::{Capacities, Counts, Streams};
pub use shifts::{PatchShift, RunShift, StopFade, TransformShift};
pub use style::Style;
pub use unit::{is_in_unit, is_stop_in_unit};
