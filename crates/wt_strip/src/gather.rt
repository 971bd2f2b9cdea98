//! The rows that columns allow, listed in ascending order.
ghost use Rattle.std.specs.Prelude.{◌≡◌, ◌<◌, ◌≤◌, ◌+◌, ◌*◌, ◌++◌, List, true, false, length, IfOk, OnOk};
ghost use Rattle.wt_strip.specs.Listed.{rows_in, IsListOf, IsSorted, AllRows};
ghost use Rattle.wt_strip.specs.Walks.{IsWay, AreAlike, IsWholeWay};
ghost use Rattle.wt_strip.specs.Gathered.{AreGathered, HasEachGathered};

use crate::limits::MAX_COLUMNS;
use crate::walk::{Columns, coming, prune};
use std::alloc::{AllocError, Global};
use wt_mask::{Sides, next_bit};

/// Appends a row.
pub fn push_row(w: usize, cells: &mut Vec<u16>, row: &[u16]) -> Result<(), AllocError>
    requires wide { 1 ≤ w }
    requires long { length row.now ≡ w }
    requires whole { length cells.old.items ≡ rows_in w cells.old.items * w }
    ensures { OnOk result (cells.new.items ≡ cells.old.items ++ row.now) }
{
    cells.extend_from_slice(row)?;
    Ok(())
}

/// Appends the rows that begin with the first x cells, in ascending order; false once there are more than `room` rows.
fn gather_from(
    sides: &Sides<'_>,
    w: usize,
    allowed: &Columns,
    room: usize,
    cells: &mut Vec<u16>,
    row: &mut [u16; MAX_COLUMNS],
    x: usize,
) -> Result<bool, AllocError>
    requires wide { 1 ≤ w }
    requires narrow { w ≤ MAX_COLUMNS }
    requires inside { x ≤ w }
    requires whole { length cells.old.items ≡ rows_in w cells.old.items * w }
    requires begun { IsWay sides.now.tiles.now allowed.now x row.old }
    ensures long { length row.new ≡ MAX_COLUMNS }
    ensures same { OnOk result (AreAlike x row.new row.old) }
    ensures gathered { OnOk result (AreGathered sides.now.tiles.now allowed.now w x (length sides.now.tiles.now) row.old cells.old.items cells.new.items) }
    ensures all { IfOk result (λ done. done ≡ true → HasEachGathered sides.now.tiles.now allowed.now w x row.old cells.old.items cells.new.items) }
    ensures more { IfOk result (λ done. done ≡ false → room < rows_in w cells.new.items) }
{
    if x == w {
        push_row(w, cells, &row[..w])?;
        return Ok(cells.len() / w <= room);
    }
    let mask = coming(sides, allowed, row, x);
    let mut from = 0usize;
    'tiles: while let Some(t) = next_bit(&mask, from) {
        row[x] = t as u16;
        if !gather_from(sides, w, allowed, room, cells, row, x + 1)? {
            return Ok(false);
        }
        from = t + 1;
    }
    Ok(true)
}

/// The rows that their columns allow, in ascending order, or some of them where they are more than `room`.
pub fn gathered(
    alloc: Global,
    sides: &Sides<'_>,
    w: usize,
    allowed: &mut Columns,
    room: usize,
) -> Result<(Vec<u16>, bool), AllocError>
    requires wide { 1 ≤ w }
    requires narrow { w ≤ MAX_COLUMNS }
    ensures all { IfOk result (λ found. found.1 ≡ true → IsListOf (IsWholeWay sides.now.tiles.now allowed.old w) w found.0.items) }
    ensures sorted { IfOk result (λ found. IsSorted w found.0.items) }
    ensures right { IfOk result (λ found. AllRows (IsWholeWay sides.now.tiles.now allowed.old w) w found.0.items) }
    ensures more { IfOk result (λ found. found.1 ≡ false → room < rows_in w found.0.items) }
{
    let mut cells = Vec::new(alloc);
    if !prune(sides, w, allowed) {
        return Ok((cells, true));
    }
    let mut row = [0u16; MAX_COLUMNS];
    let done = gather_from(sides, w, allowed, room, &mut cells, &mut row, 0)?;
    Ok((cells, done))
}
