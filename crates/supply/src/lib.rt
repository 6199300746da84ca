// Where the outlines of glyphs come from: a supply is known by its meaning alone.
#![tactic(auto)]

mod glyph_supply;
mod outline;
mod session_key;

pub use glyph_supply::GlyphSupply;
pub use outline::Outline;
pub use session_key::SessionKey;
