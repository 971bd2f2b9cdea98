//! Numbers (a + b φ) / d over the golden number φ, where φ² = φ + 1: exact arithmetic, order and sign. All is decided by
//! whole numbers, in 128 bits.
#![tactic(auto)]

mod divisor;
mod golden;
mod laws;
mod parts;
#[cfg(test)]
mod tests;
mod wide;

pub use divisor::{common, divided};
pub use golden::{Golden, GoldenFault, TooLarge, common_denominator};
pub use laws::{fraction_order, golden_order, golden_ring, lowest_terms, spellings_are_one_number};
pub use parts::Parts;
pub use wide::Wide;
