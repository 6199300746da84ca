// Packed pages: the layout and bytes of a scene's six streams, the plain pack, and the reader of a page.
#![tactic(auto)]

mod examples;
mod laws;
mod layout;
mod nothing;
mod pack;
mod plain;
mod reader;
mod refusal;
mod runs;
mod writers;

pub use examples::worked_pages;
pub use laws::{pages_read_back, parts_rejoin};
pub use layout::Layout;
pub use pack::pack_page;
pub use plain::resolve_solid_paths_only;
pub use reader::PageReader;
pub use refusal::{Misplaced, PackRefusal, TooLong};
