//! Patterns: rectangles of tile numbers, their parts, the first fault of one that isn't valid, periods, and their
//! text.
#![tactic(auto)]

mod cells;
mod drawing;
mod fault;
mod laws;
mod neighbours;
mod parts;
mod pattern;
mod periods;
mod rows;
#[cfg(test)]
mod tests;
mod text;
mod validity;
mod window;
mod writing;

pub use cells::rows_at;
pub use drawing::{DrawFault, Style, draw};
pub use fault::{Fault, PartFault, ShapeFault};
pub use laws::{
    faults, listed_tiles_are_numbered, pattern_texts_are_exact, period_faults, period_lines,
    period_turns, set_texts_are_exact, sets_have_texts, signs_of_periods, tiles_faults,
    valid_lines, window_sizes,
};
pub use parts::{core, part};
pub use pattern::Pattern;
pub use periods::period_fault;
pub use rows::tiles_at;
pub use text::{pattern_at, pattern_rows_at, read_pattern, read_set};
pub use validity::{tiles_fault, valid};
pub use window::{MAX_CELLS, window_shape};
pub use writing::{pattern_text, push_pattern, push_tiles, write_set};
pub use wt_line::{TextFault, What};
