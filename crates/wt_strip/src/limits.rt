//! The limits of layers.

/// The most tiles of a row.
pub const MAX_COLUMNS: usize = 64;

/// The most layers.
pub const MAX_LAYERS: usize = 64;

/// The most rows of all layers together.
pub const MAX_ROWS: usize = 65_536;
