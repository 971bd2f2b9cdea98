// A rectangle of tile numbers.
ghost use Rattle.std.specs.Prelude.{◌≡◌, ◌+◌, ◌*◌, ◌<◌, ◌≤◌, ℕ, MatchResult, slice_index, slice_range, vec_len, length};
ghost use Rattle.std.specs.Bool.{OnTrue};
ghost use Rattle.wt_grid.specs.Grid.{Grid, IsGrid, cell};
ghost use Rattle.wt_pattern.specs.Shape.{shape_fault, IsShape};

use crate::ShapeFault;
use std::marker::Model;
use wt_grid::MAX_SIDE;
use wt_lane::all_below;

/// A rectangle of 1 to 4096 by 1 to 4096 numbers of tiles. Row 0 is the bottom row, and cells are kept
/// in reading order: row by row, each from left to right. Seen by contracts as a `Grid`.
#[derive(Debug, Drop)]
pub struct Pattern {
    width: usize,
    height: usize,
    cells: Vec<u16>,
}

impl Model for Pattern {
    ghost use Rattle.wt_grid.specs.Grid.{Grid};
    ghost use Rattle.wt_pattern.specs.Shape.{IsShape};

    ghost Value = { Grid };

    ghost view = { λ p. record { width = p.width; height = p.height; cells = p.cells.items } };

    ghost invariant = { λ p. IsShape (record { width = p.width; height = p.height; cells = p.cells.items }) };
}

impl Pattern {
    /// The pattern with these cells in reading order, or the cells and what is wrong: Zero, then TooLarge, then
    /// Count. Takes no memory.
    pub fn new(
        width: usize,
        height: usize,
        cells: Vec<u16>,
    ) -> Result<Pattern, (Vec<u16>, ShapeFault)>
        ensures { let fault = shape_fault width height (vec_len cells) in MatchResult result
            (λ p. (p ≡ record { width = width; height = height; cells = cells.items }) × (fault ≡ None))
            (λ e. (e.0.items ≡ cells.items) × (fault ≡ Some e.1)) }
    {
        if width == 0 || height == 0 {
            return Err((cells, ShapeFault::Zero));
        }
        if width > MAX_SIDE || height > MAX_SIDE {
            return Err((cells, ShapeFault::TooLarge));
        }
        if cells.len() != width * height {
            return Err((cells, ShapeFault::Count));
        }
        Ok(Pattern {
            width,
            height,
            cells,
        })
    }

    /// The pattern with these cells in reading order, which are known to fill it. Takes no memory.
    pub fn of(width: usize, height: usize, cells: Vec<u16>) -> Pattern
        requires { IsShape (record { width = width; height = height; cells = cells.items }) }
        ensures { result ≡ record { width = width; height = height; cells = cells.items } }
    {
        Pattern {
            width,
            height,
            cells,
        }
    }

    /// How many cells a row has: 1 to 4096.
    pub fn width(&self) -> usize
        ensures value { result ≡ self.now.width }
        ensures shape { IsShape self.now }
    {
        self.width
    }

    /// How many rows there are: 1 to 4096.
    pub fn height(&self) -> usize
        ensures value { result ≡ self.now.height }
        ensures shape { IsShape self.now }
    {
        self.height
    }

    /// The number at column x of row y, which is inside.
    pub fn cell(&self, x: usize, y: usize) -> u16
        requires inside_x { x < self.now.width }
        requires inside_y { y < self.now.height }
        ensures { result ≡ cell self.now x y }
    {
        self.cells[y * self.width + x]
    }

    /// The cells of row y, which is inside, from left to right.
    pub fn row(&self, y: usize) -> &[u16]
        requires { y < self.now.height }
        ensures cells { result.now ≡ slice_range self.now.cells (y * self.now.width) (y * self.now.width + self.now.width) }
        ensures len { length result.now ≡ self.now.width }
    {
        let start = y * self.width;
        &self.cells[start..start + self.width]
    }

    /// Whether all cells are below a bound.
    pub(crate) fn is_below(&self, bound: u16) -> bool
        ensures { OnTrue result ((k : ℕ) → 0 < bound → slice_index self.now.cells k < bound) }
    {
        all_below(&self.cells, bound)
    }

    /// The cells in reading order. Takes no memory.
    pub fn into_cells(self) -> Vec<u16>
        ensures { result.items ≡ self.cells }
    {
        self.cells
    }
}
