// The limits of a script's words that no other crate has.

/// The greatest length of a name, in bytes.
pub const MAX_NAME: usize = 32;

/// The greatest number of axes of a search.
pub const MAX_AXES: usize = 8;

/// The greatest number of levels of a search.
pub const MAX_LEVELS: u32 = 32;

/// The greatest width and the greatest height of a pattern that a script makes, in tiles.
pub const MAX_MADE: u32 = 1024;

/// The greatest power of a loop of which seeds are asked.
pub const MAX_POWER: u32 = 64;

/// The greatest number of turns of a census.
pub const MAX_TURNS: u32 = 4096;

/// The numbers of a half-plane are below this in absolute value: 2^18.
pub const PLANE_LIMIT: u32 = 262_144;

/// The greatest label of a region.
pub const MAX_LABEL: u32 = 255;

/// The numbers of a golden token are below this in absolute value: 2^30.
pub const GOLDEN_LIMIT: u32 = 1_073_741_824;
