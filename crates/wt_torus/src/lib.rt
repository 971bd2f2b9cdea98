//! Rotations of a box over the golden numbers, and the letters that points of it have by labelled regions.
#![tactic(auto)]

mod coded;
mod coding;
mod known;
mod laws;
mod letter;
mod orbit;
mod partition;
mod sign;
#[cfg(test)]
mod tests;
mod turned;

pub use coded::{CodeFault, code_point};
pub use coding::code;
pub use known::sound;
pub use laws::{coordinates_are_reduced, first_returns, letters_are_codes};
pub use letter::Letter;
pub use partition::{Labelled, MAX_PLANES, MAX_REGIONS, Partition, Torus, TorusFault};
pub use sign::is_positive;
