// The limits of picks, and of what is counted for them.

/// The most steps of a chain.
pub const MAX_STEPS: usize = 32;

/// A bound on how often a loop is turned for a pick: 2^45.
pub const MAX_TURNS: usize = 35_184_372_088_832;

/// A bound on how many levels a pick has: 32 before the loop, and 32 for each turn.
pub const MAX_LEVELS: usize = 1_125_899_906_842_656;

/// How many numbers a level's block has beside those of its row: as many as a set may have tiles, and four.
/// Two are in use, the bit and the count of the row's tiles; the others leave room for a table of the level's
/// tiles.
pub const BESIDE_ROW: usize = 260;

/// The longest block: that of a row of 4096 cells.
pub const MAX_BLOCK: usize = 4356;

/// The most tiles of a word, that is, of what a tile some levels up comes to in one row.
pub const MAX_WORD: usize = 64;

/// How many tiles there is room for in a table of words.
pub const MAX_TABLE: usize = 2112;

/// The most levels that words are made below, so that a table of them pays.
pub const MAX_LOW: usize = 16;
