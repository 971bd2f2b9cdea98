//! Chains found from a set: at each level the first kept class of markers is taken, until a set comes again. And light
//! chains: each refuted pair of a step at the least radius at which its window is empty.
#![tactic(auto)]

mod end;
mod finding;
mod laws;
mod level;
mod light_end;
#[cfg(test)]
mod light_tests;
mod lightening;
mod limits;
mod lower;
mod lowering;
mod refuted;
#[cfg(test)]
mod tests;

pub use end::SearchEnd;
pub use finding::search;
pub use laws::{
    enough_budgets, found_chains_are_good, found_chains_are_within_limits, light_chains_are_good,
    light_chains_are_small, light_steps_have_least_radii,
};
pub use light_end::LightenEnd;
pub use lightening::lighten;
pub use limits::{MAX_AXES, MAX_LEVELS, MAX_NODES};
