//! Partitions of a box, induced on a window: what the first returns of a rotation to the window make of a partition and of
//! its codes (Labbé, "Rauzy induction of polygon partitions and toral Z²-rotations").
#![tactic(auto)]

mod backs;
mod drafts;
mod fault;
mod images;
mod inducing;
mod laws;
mod meeting;
#[cfg(test)]
mod tests;
mod zones;

pub use backs::moved;
pub use fault::InduceFault;
pub use inducing::induce;
pub use laws::{codes_are_images, codes_have_blocks};
pub use zones::{
    beneath, between, beyond, difference, is_half, is_less_than_half, length_of, move_of, zero,
};
