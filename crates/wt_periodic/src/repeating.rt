//! A rectangle repeated side by side to any size.
ghost use Rattle.std.specs.Prelude.{◌≡◌, ◌++◌, ◌%◌, ◌<◌, ◌≤◌, ◌↔◌, length, slice_index, IfOk, IsErrOf, Some, None};
ghost use Rattle.wt_grid.specs.Grid.{listed};
ghost use Rattle.wt_grid.specs.declared.limits.TheConstants.{MAX_SIDE};
ghost use Rattle.wt_periodic.specs.Repeats as spec;

use std::alloc::{AllocError, Global};
use wt_grid::MAX_SIDE;
use wt_pattern::Pattern;

/// Why no repeated pattern is given. The first that holds is the fault.
#[derive(Clone, Copy, Debug, PartialEq, Eq)]
pub enum RepeatFault {
    /// The width or the height is 0.
    Zero,
    /// The width or the height is over `MAX_SIDE`.
    TooLarge,
    /// No memory was left.
    OutOfMemory,
}

/// The pattern repeated side by side to w by h cells. Zero exactly where w or h is 0; TooLarge exactly where
/// neither is 0 and one is over `MAX_SIDE`.
pub fn repeat(alloc: Global, p: &Pattern, w: usize, h: usize) -> Result<Pattern, RepeatFault>
    ensures repeated { IfOk result (λ r. r ≡ spec.repeated p.now w h) }
    ensures sized { IfOk result (λ r. spec.repeat_fault w h ≡ None) }
    ensures zero { IsErrOf result RepeatFault.Zero ↔ (spec.repeat_fault w h ≡ Some RepeatFault.Zero) }
    ensures too_large { IsErrOf result RepeatFault.TooLarge ↔ (spec.repeat_fault w h ≡ Some RepeatFault.TooLarge) }
{
    if w == 0 || h == 0 {
        return Err(RepeatFault::Zero);
    }
    if w > MAX_SIDE || h > MAX_SIDE {
        return Err(RepeatFault::TooLarge);
    }
    match repeated_cells(alloc, p, w, h) {
        Ok(cells) => Ok(Pattern::of(w, h, cells)),
        Err(_) => Err(RepeatFault::OutOfMemory),
    }
}

/// The cells of the pattern repeated, row by row.
fn repeated_cells(alloc: Global, p: &Pattern, w: usize, h: usize) -> Result<Vec<u16>, AllocError>
    requires wide { w ≤ MAX_SIDE }
    requires high { h ≤ MAX_SIDE }
    ensures { IfOk result (λ cells. cells.items ≡ (spec.repeated p.now w h).cells) }
{
    let mut cells = Vec::with_capacity(alloc, w * h)?;
    let height = p.height();
    for j in 0..h {
        push_round(&mut cells, p.row(j % height), w)?;
    }
    Ok(cells)
}

/// Adds w cells: those of a row, again and again.
fn push_round(cells: &mut Vec<u16>, row: &[u16], w: usize) -> Result<(), AllocError>
    requires { 1 ≤ length row.now }
    ensures { IfOk result (λ done. cells.new.items ≡ cells.old.items ++ listed w (λ x. slice_index row.now (x % length row.now))) }
{
    let mut done = 0usize;
    while w - done >= row.len() {
        cells.extend_from_slice(row)?;
        done += row.len();
    }
    cells.extend_from_slice(&row[..w - done])?;
    Ok(())
}
