//! Rectangles that wrap round: whether one does, one repeated to any size, the least of a set, and that a set of a
//! looped chain has none.
#![tactic(auto)]

mod cylinder;
mod laws;
mod least;
mod pairs;
mod repeating;
mod rounds;
mod search;
#[cfg(test)]
mod tests;
mod wrapping;

pub use laws::{
    budgets_are_enough, least_wraps_are_one, looped_sets_have_no_wrap, wrap_faults, wraps_repeat,
};
pub use least::{MAX_LIMIT, WrapEnd, least_wrap};
pub use repeating::{RepeatFault, repeat};
pub use wrapping::wraps;
