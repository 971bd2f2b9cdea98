//! Text that is written: words, numbers and rows of numbers, appended to bytes. A call takes memory only for the
//! bytes it appends.
#![tactic(auto)]

mod rows;
mod words;

pub use rows::{push_numbers, push_row};
pub use words::{bytes_behind, end_line, number_behind, push_number, push_word, word_behind};
