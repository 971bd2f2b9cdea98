//! Pairs of tiles, listed.
ghost use Rattle.std.specs.Prelude.{◌≡◌, ◌≤◌, ◌++◌, IfOk, OnOk};
ghost use Rattle.wt_tile.specs.Sets.{set_fault};
ghost use Rattle.wt_marker.specs.Gather.{pairs_of, row_of};
ghost use Rattle.wt_window.specs.Surrounded.{allowed};
ghost use Rattle.wt_marker.specs.Derived as spec;

use crate::pushes::push_if;
use std::alloc::{AllocError, Global};
use wt_tile::{Axis, SetRef, is_match};
use wt_window::DominoTable;

fn is_refuted(set: SetRef<'_>, axis: Axis, table: &DominoTable, a: u16, b: u16) -> bool
    ensures { result ≡ spec.is_refuted set.entry.list.now.tiles axis (allowed table.now) a b }
{
    is_match(set.tiles(), axis, a, b) && !table.allows(a, b)
}

/// Appends the dominoes with a in front.
fn push_allowed(
    out: &mut Vec<(u16, u16)>,
    table: &DominoTable,
    a: u16,
    count: u16,
) -> Result<(), AllocError>
    ensures { OnOk result (out.new.items ≡ out.old.items ++ row_of (allowed table.now) count a) }
{
    for b in 0..count {
        push_if(out, table.allows(a, b), (a, b))?;
    }
    Ok(())
}

/// The dominoes of a table, by the first tile and then by the second.
pub fn list_allowed(
    alloc: Global,
    table: &DominoTable,
    count: u16,
) -> Result<Vec<(u16, u16)>, AllocError>
    ensures { IfOk result (λ pairs. pairs.items ≡ pairs_of (allowed table.now) count) }
{
    let mut out = Vec::new(alloc);
    for a in 0..count {
        push_allowed(&mut out, table, a, count)?;
    }
    Ok(out)
}

/// Appends the matching pairs with a in front that are no dominoes.
fn push_refuted(
    out: &mut Vec<(u16, u16)>,
    set: SetRef<'_>,
    axis: Axis,
    table: &DominoTable,
    a: u16,
    count: u16,
) -> Result<(), AllocError>
    ensures { OnOk result (out.new.items ≡ out.old.items ++ row_of (spec.is_refuted set.entry.list.now.tiles axis (allowed table.now)) count a) }
{
    for b in 0..count {
        push_if(out, is_refuted(set, axis, table, a, b), (a, b))?;
    }
    Ok(())
}

/// The matching pairs of an axis that are no dominoes, by the first tile and then by the second.
pub fn list_refuted(
    alloc: Global,
    set: SetRef<'_>,
    axis: Axis,
    table: &DominoTable,
    count: u16,
) -> Result<Vec<(u16, u16)>, AllocError>
    ensures { IfOk result (λ pairs. pairs.items ≡ pairs_of (spec.is_refuted set.entry.list.now.tiles axis (allowed table.now)) count) }
{
    let mut out = Vec::new(alloc);
    for a in 0..count {
        push_refuted(&mut out, set, axis, table, a, count)?;
    }
    Ok(out)
}
