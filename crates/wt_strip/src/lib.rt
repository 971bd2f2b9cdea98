//! Layers of valid rows: certificates that a rectangle can't be filled, and their check.
#![tactic(auto)]

mod check;
mod gather;
mod laws;
mod layers;
mod leads;
mod least;
mod limits;
mod making;
mod merge;
mod rows;
mod shape;
#[cfg(test)]
mod tests;
mod text;
mod upon;
mod walk;

pub use check::check_strip;
pub use laws::{exact_layers_forbid, faults_are_one, layers_are_patterns, strip_texts_are_exact};
pub use layers::{Layers, StripFault};
pub use limits::{MAX_COLUMNS, MAX_LAYERS, MAX_ROWS};
pub use making::{StripEnd, Stripped, strip};
pub use text::{push_strip, read_strip, strip_at, write_strip};
