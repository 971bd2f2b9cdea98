//! What good steps do to patterns and their periods, as theorems: every valid coarse pattern has a valid image,
//! a period of a pattern is a period of its coarse pattern, and so no large pattern over a good loop has a
//! period; and over a good loop there are valid patterns of every size. `size_for` computes how large is large
//! enough for a vector.
#![tactic(auto)]

mod laws;
mod size;

pub use laws::{
    digits_are_least, every_size_has_a_pattern, good_chains_hold, images_are_valid,
    large_patterns_have_no_period, least_powers, link_images_are_valid, patterns_are_lowered,
    picks_are_valid, renamed_patterns_are_valid, sizes_exclude_periods, turns_double_patterns,
};
pub use size::{SizeFault, size_for};
