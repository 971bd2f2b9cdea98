// The limits of the program.

/// The most bytes that an input may have: 16 MiB.
pub const MAX_INPUT: usize = 16_777_216;

/// The least width and height of a sample: its core has three columns.
pub const MIN_SAMPLE: usize = 5;
