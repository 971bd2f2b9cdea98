//! The check of a chain, and what is printed of it; and what the powers of a loop's map make of tiles: the least
//! power that mixes them, how often each tile stands in a power, and the fixed 2 by 2 patterns of a power.
#![tactic(auto)]

mod accepted;
mod checked;
mod corners;
mod counts;
mod fixed;
mod laws;
mod mixing;
mod refusal;
#[cfg(test)]
mod tests;

pub use accepted::report;
pub use checked::check;
pub use corners::Corner;
pub use counts::{CensusFault, census};
pub use fixed::{SeedFault, seeds};
pub use laws::{counts_compose, seeds_are_fixed, seeds_ascend, turns_compose};
pub use mixing::{OpenChain, primitive};
pub use refusal::refusal_text;
