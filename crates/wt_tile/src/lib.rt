//! Tiles and tile sets: names of colours, the first fault of a list of tiles, matching, fusion, and colours of
//! fused edges.
#![tactic(auto)]

mod checks;
mod colours;
mod fusion;
mod laws;
mod matching;
mod name;
mod set;
#[cfg(test)]
mod tests;
mod tile;

pub use checks::{colour_fault, place_of, repeated};
pub use colours::{ColourFault, Colours};
pub use fusion::{Edge, Fused, fuse};
pub use laws::{numbers_tell_edges, tile_sets};
pub use matching::{ahead, behind, is_match, same_axis, tile_at};
pub use name::Name;
pub use set::{SetRef, TileSet, set_fault};
pub use tile::{SetFault, Tile, TileList};
pub use wt_grid::{Axis, Side};
