// The size of a window, and its limit.
ghost use Rattle.std.specs.Prelude.{◌≡◌, ◌≤◌};
ghost use Rattle.wt_pattern.specs.Windows.{window_size};

use wt_tile::Axis;

/// The greatest number of cells of a window: one of radius 4 has 10 lines of 9 cells.
pub const MAX_CELLS: usize = 90;

/// Width and height of the window of a domino along the axis, with this radius of at most 4: the two cells
/// of the domino with that many lines on each side. Takes no memory.
pub fn window_shape(axis: Axis, radius: u8) -> (usize, usize)
    requires { radius ≤ 4 }
    ensures { result ≡ window_size axis radius }
{
    let r = usize::from(radius);
    match axis {
        Axis::One => (r + r + 2, r + r + 1),
        Axis::Two => (r + r + 1, r + r + 2),
    }
}
