// The atlas in which pictures find their places: the trait by its meaning, the shelf atlas and the corner atlas.
#![tactic(auto)]

mod atlas;
mod corner_atlas;
mod rect;
mod search;
mod shelf_atlas;
mod square;

pub use atlas::Atlas;
pub use corner_atlas::CornerAtlas;
pub use rect::Rect;
pub use shelf_atlas::ShelfAtlas;
