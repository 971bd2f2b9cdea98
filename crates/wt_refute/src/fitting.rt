//! The tiles that fit a cell, as a mask, and how many fit the free cells, kept from node to node.
ghost use Rattle.std.specs.Prelude.{◌≡◌, ℕ, ◌+◌, ◌-◌, ◌^◌, ◌<◌, ◌≤◌, ◌&&◌, nat_lt, length, Some, true, slice_set};
ghost use Rattle.wt_lane.specs.Masks.{mask_bit};
ghost use Rattle.wt_mask.specs.Masks as mask_words;
ghost use Rattle.wt_refute.specs.Placed as spec;
ghost use Rattle.wt_refute.specs.Fitted.{joins, IsFitMask, IsCounted, AreCounted};

use crate::window::{above, below, is_free, left_of, right_of};
use wt_lane::{and_into, count_ones};
use wt_mask::{Sides, Way};
use wt_pattern::MAX_CELLS;

/// For each free cell of a window, how many tiles fit there.
pub type Counts = [u32; MAX_CELLS];

/// The tiles that may stand on a side of what is placed: all, where nothing is.
fn joined(sides: &Sides<'_>, way: Way, tile: Option<u16>) -> [u64; 4]
    ensures { (u : ℕ) → mask_bit result u ≡ mask_words.bit (nat_lt u (length sides.now.tiles.now) && joins sides.now.tiles.now way tile u) }
{
    match tile {
        None => sides.all(),
        Some(tile) => sides.beside(way, tile),
    }
}

/// The tiles that fit a cell.
pub fn fit_mask(
    sides: &Sides<'_>,
    shape: (usize, usize),
    cells: &[Option<u16>],
    cell: usize,
) -> [u64; 4]
    requires wide { 0 < shape.0 }
    requires small { shape.0 < 2 ^ 32 }
    requires low { cell < 2 ^ 32 }
    ensures { IsFitMask sides.now.tiles.now (spec.placed shape cells.now) cell result }
{
    let mut mask = joined(sides, Way::Left, right_of(shape, cells, cell));
    and_into(
        &mut mask,
        &joined(sides, Way::Down, above(shape, cells, cell)),
    );
    and_into(
        &mut mask,
        &joined(sides, Way::Right, left_of(shape, cells, cell)),
    );
    and_into(
        &mut mask,
        &joined(sides, Way::Up, below(shape, cells, cell)),
    );
    mask
}

/// Counts anew what fits a cell, if it is free.
fn renew(
    sides: &Sides<'_>,
    shape: (usize, usize),
    cells: &[Option<u16>],
    counts: &mut Counts,
    cell: usize,
)
    requires wide { 0 < shape.0 }
    requires small { shape.0 < 2 ^ 32 }
    requires few { length cells.now ≤ MAX_CELLS }
    ensures here { spec.is_free (spec.placed shape cells.now) cell ≡ true
        → IsCounted sides.now.tiles.now (spec.placed shape cells.now) counts.new cell }
    ensures kept { (d : ℕ) → IsCounted sides.now.tiles.now (spec.placed shape cells.now) counts.old d
        → IsCounted sides.now.tiles.now (spec.placed shape cells.now) counts.new d }
{
    if cell >= cells.len() {
        return;
    }
    if !is_free(shape, cells, cell) {
        return;
    }
    counts[cell] = count_ones(&fit_mask(sides, shape, cells, cell));
}

/// Counts anew what fits the cell n numbers before a cell.
fn renew_before(
    sides: &Sides<'_>,
    shape: (usize, usize),
    cells: &[Option<u16>],
    counts: &mut Counts,
    cell: usize,
    less: usize,
)
    requires wide { 0 < shape.0 }
    requires small { shape.0 < 2 ^ 32 }
    requires few { length cells.now ≤ MAX_CELLS }
    ensures here { less ≤ cell → spec.is_free (spec.placed shape cells.now) (cell - less) ≡ true
        → IsCounted sides.now.tiles.now (spec.placed shape cells.now) counts.new (cell - less) }
    ensures kept { (d : ℕ) → IsCounted sides.now.tiles.now (spec.placed shape cells.now) counts.old d
        → IsCounted sides.now.tiles.now (spec.placed shape cells.now) counts.new d }
{
    if less <= cell {
        renew(sides, shape, cells, counts, cell - less);
    }
}

/// How many tiles fit each free cell.
pub fn count_all(sides: &Sides<'_>, shape: (usize, usize), cells: &[Option<u16>]) -> Counts
    requires wide { 0 < shape.0 }
    requires small { shape.0 < 2 ^ 32 }
    requires few { length cells.now ≤ MAX_CELLS }
    ensures { AreCounted sides.now.tiles.now (spec.placed shape cells.now) result }
{
    let mut counts = [0; MAX_CELLS];
    for cell in 0..cells.len() {
        renew(sides, shape, cells, &mut counts, cell);
    }
    counts
}

/// Places a tile at a cell, and counts anew what fits the free cells beside it.
pub fn put(
    sides: &Sides<'_>,
    shape: (usize, usize),
    cells: &mut [Option<u16>],
    counts: &mut Counts,
    at: usize,
    tile: u16,
)
    requires wide { 0 < shape.0 }
    requires small { shape.0 < 2 ^ 32 }
    requires few { length cells.old ≤ MAX_CELLS }
    requires within { at < length cells.old }
    requires counted { AreCounted sides.now.tiles.now (spec.placed shape cells.old) counts.old }
    ensures filled { cells.new ≡ slice_set cells.old at (Some tile) }
    ensures counted { AreCounted sides.now.tiles.now (spec.placed shape cells.new) counts.new }
{
    cells[at] = Some(tile);
    renew(sides, shape, cells, counts, at + 1);
    renew(sides, shape, cells, counts, at + shape.0);
    renew_before(sides, shape, cells, counts, at, 1);
    renew_before(sides, shape, cells, counts, at, shape.0);
}
