// The streams of a packed page: the four that glyph runs go into, and the draw data with what is bound late.
#![tactic(auto)]

mod count;
mod draw_data;
mod entry_stream;
mod glyph_runs;
mod glyphs;
mod inserted;
mod kinds;
mod path_data;
mod path_tags;
mod run_stream;
mod runs;
mod styles;
mod supplied;
mod transforms;

pub use count::count_inserted;
pub use draw_data::{LateWords, put_draw_data};
pub use entry_stream::EntryStream;
pub use glyph_runs::GlyphRuns;
pub use inserted::Inserted;
pub use kinds::{PathData, PathTags, Styles, Transforms};
pub use path_data::PathDataStream;
pub use path_tags::PathTagStream;
pub use run_stream::RunStream;
pub use runs::{put_entry_stream, put_stream};
pub use styles::StyleStream;
pub use transforms::TransformStream;
