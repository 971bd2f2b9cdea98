//! Windows: the least one round two tiles, and which pairs have one, by a search in reading order over masks of
//! tiles. How many trials a search takes stands here too, as laws with no code.
#![tactic(auto)]

mod carry;
mod domino_table;
mod frame;
mod laws;
mod search;
mod tables;
#[cfg(test)]
mod tests;
mod window;

pub use domino_table::{DominoTable, TableEnd, dominoes};
pub use laws::{
    fillings_are_listed, surroundable_pairs_have_windows, trials_are_sums,
    whole_fillings_are_windows,
};
pub use tables::Tables;
pub use window::{WindowEnd, surround};
