//! The text of a certificate: read with its exact value or its first fault, over both versions, steps of both
//! kinds and both ends. `read` goes down the parts of a text, and its modules read lists of lines, lines, and
//! what stands in a line: a tree is read within its limits, and asked for its form where it passes one. `write`
//! writes the same parts.
#![tactic(auto)]

mod laws;
mod limits;
mod read;
#[cfg(test)]
mod tests;
mod write;

pub use laws::{certificates_are_exact, good_chains_have_texts};
pub use read::{read_cert, read_chain};
pub use write::write_cert;
