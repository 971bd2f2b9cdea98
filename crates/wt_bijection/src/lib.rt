//! Which lists of numbers carry one tile set onto another, colours and all.
#![tactic(auto)]

mod labels;
mod laws;
mod least;
mod renaming;
#[cfg(test)]
mod tests;

pub use laws::{least_renamings, renamings};
pub use least::equivalent;
pub use renaming::check_renaming;
