//! What a search may be asked for, and how many nodes its trees may have.

/// The greatest number of nodes of all trees together.
pub const MAX_NODES: usize = 1_048_576;

/// The greatest number of axes that are taken in turn.
pub const MAX_AXES: usize = 8;

/// The greatest number of levels: as many as a chain has steps.
pub const MAX_LEVELS: usize = 32;
