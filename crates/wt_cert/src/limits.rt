// The limits of the trees of a certificate.

/// The most nodes of all trees of a certificate.
pub const MAX_NODES: u32 = 1_048_576;

/// The most levels of a tree, one for each cell of the largest window.
pub const MAX_LEVELS: u8 = 90;
