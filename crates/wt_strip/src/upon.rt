//! The next layer: the valid rows upon listed rows.
ghost use Rattle.std.specs.Prelude.{◌≡◌, ◌<◌, ◌≤◌, ◌+◌, length, IfOk};
ghost use Rattle.wt_strip.specs.Layers.{IsRow};
ghost use Rattle.wt_strip.specs.Listed.{rows_in, IsAscending, IsUpon, IsLayerOrMore};
ghost use Rattle.wt_strip.specs.Merged.{IsUponSome};

use crate::gather::gathered;
use crate::leads::lead_rows;
use crate::limits::MAX_COLUMNS;
use crate::merge::{in_order, merged};
use crate::rows::row;
use crate::walk::{Columns, all_allowed, allow_upon, none_allowed};
use std::alloc::{AllocError, Global};
use wt_mask::Sides;

/// The valid rows upon one row, or None where they are more than `room`.
fn rows_upon_one(
    alloc: Global,
    sides: &Sides<'_>,
    w: usize,
    below: &[u16],
    r: usize,
    room: usize,
    allowed: &mut Columns,
) -> Result<Option<Vec<u16>>, AllocError>
    requires wide { 1 ≤ w }
    requires narrow { w ≤ MAX_COLUMNS }
    requires inside { r < rows_in w below.now }
    ensures { IfOk result (IsLayerOrMore (IsUponSome sides.now.tiles.now w below.now r (r + 1)) w room) }
{
    allow_upon(sides, row(w, below, r), allowed);
    let (cells, done) = gathered(alloc, sides, w, allowed, room)?;
    if done { Ok(Some(cells)) } else { Ok(None) }
}

/// The valid rows upon one of the rows from `low` on below `high`, or None where they are more than `room`.
fn rows_upon(
    alloc: Global,
    sides: &Sides<'_>,
    w: usize,
    below: &[u16],
    low: usize,
    high: usize,
    room: usize,
    allowed: &mut Columns,
) -> Result<Option<Vec<u16>>, AllocError>
    requires wide { 1 ≤ w }
    requires narrow { w ≤ MAX_COLUMNS }
    requires some { low < high }
    requires inside { high ≤ rows_in w below.now }
    ensures { IfOk result (IsLayerOrMore (IsUponSome sides.now.tiles.now w below.now low high) w room) }
{
    if high - low == 1 {
        return rows_upon_one(alloc, sides, w, below, low, room, allowed);
    }
    let middle = low + (high - low) / 2;
    let Some(first) = rows_upon(alloc, sides, w, below, low, middle, room, allowed)? else {
        return Ok(None);
    };
    let Some(second) = rows_upon(alloc, sides, w, below, middle, high, room, allowed)? else {
        return Ok(None);
    };
    let cells = merged(alloc, w, &first, &second)?;
    if cells.len() / w > room {
        return Ok(None);
    }
    Ok(Some(cells))
}

/// The first layer: all valid rows, or None where they are more than `room`.
pub fn first_layer(
    alloc: Global,
    sides: &Sides<'_>,
    w: usize,
    room: usize,
) -> Result<Option<Vec<u16>>, AllocError>
    requires wide { 1 ≤ w }
    requires narrow { w ≤ MAX_COLUMNS }
    ensures { IfOk result (IsLayerOrMore (IsRow sides.now.tiles.now w) w room) }
{
    let mut allowed = all_allowed(sides);
    let (cells, done) = gathered(alloc, sides, w, &mut allowed, room)?;
    if done { Ok(Some(cells)) } else { Ok(None) }
}

/// The next layer: the valid rows upon one of the rows of the layer below, or None where they are more than `room`.
pub fn next_layer(
    alloc: Global,
    sides: &Sides<'_>,
    w: usize,
    below: &[u16],
    room: usize,
) -> Result<Option<Vec<u16>>, AllocError>
    requires wide { 1 ≤ w }
    requires narrow { w ≤ MAX_COLUMNS }
    requires ascending { IsAscending w below.now (rows_in w below.now) }
    ensures { IfOk result (IsLayerOrMore (IsUpon sides.now.tiles.now w 1 below.now) w room) }
{
    let leads = lead_rows(alloc, sides, w, below)?;
    let count = leads.len() / w;
    if count == 0 {
        return Ok(Some(Vec::new(alloc)));
    }
    let leads = in_order(alloc, w, &leads, 0, count)?;
    let mut allowed = none_allowed();
    let Some(cells) = rows_upon(
        alloc,
        sides,
        w,
        &leads,
        0,
        leads.len() / w,
        room,
        &mut allowed,
    )?
    else {
        return Ok(None);
    };
    Ok(Some(cells))
}
