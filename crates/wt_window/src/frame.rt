//! The frame of a window: its size, and where its two tiles stand.
ghost use Rattle.std.specs.Prelude.{◌≡◌, ◌<◌, ◌≤◌};
ghost use Rattle.wt_window.specs.Trials.{window, cells, second_cell};
ghost use Rattle.wt_window.specs.Frames.{frame_window};
ghost use Rattle.wt_window.specs.Frames as spec;

use wt_mask::Way;
use wt_pattern::{MAX_CELLS, window_shape};
use wt_tile::Axis;

/// A window's width and height, and the numbers of the two cells where tile a and tile b stand. Cell (x, y)
/// has the number y * width + x.
#[derive(Clone, Copy, Debug, PartialEq, Eq)]
pub struct Frame {
    /// Cells in a row.
    pub width: usize,
    /// Rows.
    pub height: usize,
    /// The number of the cell of tile a.
    pub first: usize,
    /// The number of the cell of tile b.
    pub second: usize,
    /// The tile that stands in the first cell.
    pub a: u16,
    /// The tile that stands in the second cell.
    pub b: u16,
}

/// The frame of the window of radius `radius` round a and b, b following a along the axis.
pub fn frame_of(axis: Axis, a: u16, b: u16, radius: u8) -> Frame
    requires { radius ≤ 4 }
    ensures { frame_window result ≡ window axis a b radius }
{
    let shape = window_shape(axis, radius);
    let first = usize::from(radius) * shape.0 + usize::from(radius);
    let second = next_cell(axis, shape.0, usize::from(radius));
    Frame {
        width: shape.0,
        height: shape.1,
        first,
        second,
        a,
        b,
    }
}

fn next_cell(axis: Axis, width: usize, radius: usize) -> usize
    requires small { width ≤ MAX_CELLS }
    requires low { radius ≤ 4 }
    ensures { result ≡ second_cell axis width radius }
{
    match axis {
        Axis::One => radius * width + (radius + 1),
        Axis::Two => (radius + 1) * width + radius,
    }
}

/// The cell on a side of a cell, where the window has one.
pub fn beside(frame: &Frame, cell: usize, way: Way) -> Option<usize>
    requires wide { 0 < frame.now.width }
    requires low_width { frame.now.width ≤ MAX_CELLS }
    requires few { cells (frame_window frame.now) ≤ MAX_CELLS }
    requires low { cell < MAX_CELLS }
    ensures { result ≡ spec.beside (frame_window frame.now) cell way }
{
    match way {
        Way::Right => {
            if cell % frame.width + 1 < frame.width {
                Some(cell + 1)
            } else {
                None
            }
        }
        Way::Left => {
            if cell % frame.width > 0 {
                Some(cell - 1)
            } else {
                None
            }
        }
        Way::Up => {
            if cell + frame.width < frame.width * frame.height {
                Some(cell + frame.width)
            } else {
                None
            }
        }
        Way::Down => {
            if frame.width <= cell {
                Some(cell - frame.width)
            } else {
                None
            }
        }
    }
}
