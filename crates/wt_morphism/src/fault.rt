// Why a pattern was given no image.

/// Why `apply` and `apply_all` give no image.
#[derive(Clone, Copy, Debug, PartialEq, Eq)]
pub enum ApplyFault {
    /// The image of cell (x, y) is longer or shorter than that of the first cell of its line, its column
    /// along axis 1, its row along axis 2: the first such cell in reading order, the bottom row first.
    Uneven { x: usize, y: usize },
    /// The image is over 4096 wide or high.
    TooLarge,
    /// No memory was left.
    OutOfMemory,
}

/// Why `apply_part` gives no part of an image.
#[derive(Clone, Copy, Debug, PartialEq, Eq)]
pub enum CutFault {
    /// As in `ApplyFault`.
    Uneven { x: usize, y: usize },
    /// No memory was left.
    OutOfMemory,
}
