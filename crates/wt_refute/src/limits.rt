//! How many nodes the trees of one chain may have.

/// The greatest number of nodes of all trees of a chain together: what the text of a certificate takes.
pub const MAX_NODES: usize = 1_048_576;
