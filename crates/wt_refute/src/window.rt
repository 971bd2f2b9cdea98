//! Windows with some of their tiles placed.
ghost use Rattle.std.specs.Prelude.{◌≡◌, ◌^◌, ◌<◌};
ghost use Rattle.wt_refute.specs.Placed.{placed};
ghost use Rattle.wt_refute.specs.Placed as spec;

/// The tile at a cell, where one is placed.
pub fn tile_in(shape: (usize, usize), cells: &[Option<u16>], cell: usize) -> Option<u16>
    ensures { result ≡ spec.tile_in (placed shape cells.now) cell }
{
    if cell < cells.len() {
        cells[cell]
    } else {
        None
    }
}

/// Whether a cell of the window is free.
pub fn is_free(shape: (usize, usize), cells: &[Option<u16>], cell: usize) -> bool
    ensures { result ≡ spec.is_free (placed shape cells.now) cell }
{
    if cell >= cells.len() {
        return false;
    }
    match cells[cell] {
        None => true,
        Some(_) => false,
    }
}

/// The tile to the right of a cell, where one is placed.
pub fn right_of(shape: (usize, usize), cells: &[Option<u16>], cell: usize) -> Option<u16>
    requires wide { 0 < shape.0 }
    requires small { shape.0 < 2 ^ 32 }
    requires low { cell < 2 ^ 32 }
    ensures { result ≡ spec.right_of (placed shape cells.now) cell }
{
    if cell % shape.0 + 1 < shape.0 {
        tile_in(shape, cells, cell + 1)
    } else {
        None
    }
}

/// The tile above a cell, where one is placed.
pub fn above(shape: (usize, usize), cells: &[Option<u16>], cell: usize) -> Option<u16>
    requires small { shape.0 < 2 ^ 32 }
    requires low { cell < 2 ^ 32 }
    ensures { result ≡ spec.above (placed shape cells.now) cell }
{
    tile_in(shape, cells, cell + shape.0)
}

/// The tile to the left of a cell, where one is placed.
pub fn left_of(shape: (usize, usize), cells: &[Option<u16>], cell: usize) -> Option<u16>
    requires wide { 0 < shape.0 }
    ensures { result ≡ spec.left_of (placed shape cells.now) cell }
{
    if cell % shape.0 > 0 {
        tile_in(shape, cells, cell - 1)
    } else {
        None
    }
}

/// The tile below a cell, where one is placed.
pub fn below(shape: (usize, usize), cells: &[Option<u16>], cell: usize) -> Option<u16>
    ensures { result ≡ spec.below (placed shape cells.now) cell }
{
    if shape.0 <= cell {
        tile_in(shape, cells, cell - shape.0)
    } else {
        None
    }
}
