//! Partitions of a torus that code valid patterns over a tile set: which regions can follow each other, which lie
//! beyond a window, and what a step's desubstitution makes of codes (Labbé, "Markov partitions for toral Z²-rotations
//! featuring Jeandel-Rao Wang shift and model sets").
#![tactic(auto)]

mod boxes;
mod desub;
mod edges;
mod fault;
mod laws;
mod meets;
mod moved;
mod pairs;
mod partition;
#[cfg(test)]
mod tests;
mod turns;
mod window;

pub use desub::code_desub;
pub use fault::{CodeDesubFault, MarkovFault, WindowFault};
pub use laws::{
    blocks_are_returns, codes_agree, codes_are_valid, no_fault_is_markov, no_fault_is_window,
};
pub use partition::markov;
pub use window::marker_window;
