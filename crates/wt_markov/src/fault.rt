//! Why a partition doesn't code valid patterns, why its markers aren't the labels beyond a window, and why a point has no code
//! that is taken apart.
use wt_grid::Axis;
use wt_torus::CodeFault;

/// Why `markov` refuses a partition.
#[derive(Clone, Copy, Debug, PartialEq, Eq)]
pub enum MarkovFault {
    /// The label of this region is no tile of the set.
    Tile { region: usize },
    /// A half-plane of the box, of a zone, or of a region moved back has a number out of limit.
    TooLarge,
    /// Region i can be followed by region j along the axis, and their labels don't match along it.
    Pair { axis: Axis, i: usize, j: usize },
}

/// Why `marker_window` refuses a partition.
#[derive(Clone, Copy, Debug, PartialEq, Eq)]
pub enum WindowFault {
    /// The step's side is before.
    Side,
    /// Twice the move is the length.
    Half,
    /// A half-plane of the box or of the window has a number out of limit.
    TooLarge,
    /// This region is beyond the window, and its label is no marker.
    Outside { region: usize },
    /// This region is inside the window, and its label is a marker.
    Inside { region: usize },
    /// This marker labels no region beyond the window.
    Nowhere { marker: u16 },
}

/// Why `code_desub` takes nothing apart.
#[derive(Clone, Copy, Debug, PartialEq, Eq)]
pub enum CodeDesubFault {
    /// The point has no code.
    Code(CodeFault),
    /// The core of the code has fewer than three lines along the axis or no cell across.
    TooSmall,
    /// No memory was left.
    OutOfMemory,
}
