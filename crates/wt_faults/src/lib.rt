//! What the first fault of a text means, as laws with no code: over a grammar without limits, and not by the reader
//! that finds it.
#![tactic(auto)]

mod laws;

pub use laws::{
    certificate_faults, desub_faults, desub_inputs_are_exact, pattern_faults,
    pattern_inputs_are_exact, row_faults,
};
