// The limits of numbers in a line.

/// The greatest number that a line may hold where no other limit is told: 65,535, that of a tile's number.
pub const MOST: u16 = 65_535;

/// The greatest radius.
pub const MAX_RADIUS: u8 = 4;
