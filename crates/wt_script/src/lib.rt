//! The text of a script, read to its commands: each with its own lines and with the number of the line where it
//! begins, or the first fault of the text.
#![tactic(auto)]

mod chains;
mod counts;
mod goldens;
mod kinds;
mod laws;
mod limits;
mod own;
mod partitions;
mod patterns;
mod raw;
mod rows;
mod script;
mod sets;
mod steps;
#[cfg(test)]
mod tests;
mod token;
mod torus;
mod windows;
mod word;

pub use laws::{bound_names_are_well_formed, pieces_follow};
pub use script::parse_script;
pub use torus::{RawBox, RawRegion, RawTorus, torus_at};
pub use word::{Command, Word};
pub use wt_pattern::Style;
