//! Kernels on rows of tile numbers and on masks of 256 bits, in lanes of `std::simd`. Each is equal to its plain
//! definition for every length, and none takes memory.
#![tactic(auto)]

mod masks;
mod rows;

pub use masks::{and_into, any, count_ones, lowest};
pub use rows::{all_below, count_equal, first_difference};

#[cfg(test)]
mod tests;
