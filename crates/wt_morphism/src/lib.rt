//! Images of tiles, and of patterns of them.
#![tactic(auto)]

mod applied;
mod even;
mod fault;
mod image;
mod laid;
mod laws;
#[cfg(test)]
mod tests;

pub use applied::{apply, apply_all, apply_part};
pub use fault::{ApplyFault, CutFault};
pub use image::Morphism;
pub use laws::{images_are_images, uneven_lines};
pub use wt_grid::Image;
