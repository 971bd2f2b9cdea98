// Parts of a pattern.
ghost use Rattle.std.specs.Prelude.{◌≡◌, ◌≤◌, ◌+◌, ◌⊎◌, true, false, IfOk, IsErrOf, ◌↔◌};
ghost use Rattle.wt_grid.specs.Parts as spec;
ghost use Rattle.wt_pattern.specs.Shape.{holds_part, IsShape};

use crate::{PartFault, Pattern};
use std::alloc::{AllocError, Global};

/// The w by h cells from (x, y) on; Outside exactly where w or h is 0 or they leave the pattern.
pub fn part(
    alloc: Global,
    p: &Pattern,
    x: usize,
    y: usize,
    w: usize,
    h: usize,
) -> Result<Pattern, PartFault>
    ensures part { IfOk result (λ q. q ≡ spec.part p.now x y w h) }
    ensures outside { IsErrOf result PartFault.Outside ↔ (holds_part p.now x y w h ≡ false) }
{
    if !is_inside(p, x, y, w, h) {
        return Err(PartFault::Outside);
    }
    let cells = part_cells(alloc, p, x, y, w, h)?;
    Ok(Pattern::of(w, h, cells))
}

/// The pattern without r lines on each side; Outside exactly where nothing is left.
pub fn core(alloc: Global, p: &Pattern, r: usize) -> Result<Pattern, PartFault>
    ensures core { IfOk result (λ q. q ≡ spec.core r p.now) }
    ensures outside { IsErrOf result PartFault.Outside ↔ ((p.now.width ≤ r + r) ⊎ (p.now.height ≤ r + r)) }
{
    let border = r.saturating_add(r);
    let width = p.width().saturating_sub(border);
    let height = p.height().saturating_sub(border);
    part(alloc, p, r, r, width, height)
}

/// Whether the w by h cells from (x, y) on are some, and lie in the pattern.
fn is_inside(p: &Pattern, x: usize, y: usize, w: usize, h: usize) -> bool
    ensures value { result ≡ holds_part p.now x y w h }
    ensures shape { IsShape p.now }
{
    let width = p.width();
    let height = p.height();
    w > 0 && h > 0 && x <= width && w <= width - x && y <= height && h <= height - y
}

/// The cells of a part, in reading order.
fn part_cells(
    alloc: Global,
    p: &Pattern,
    x: usize,
    y: usize,
    w: usize,
    h: usize,
) -> Result<Vec<u16>, AllocError>
    requires inside { holds_part p.now x y w h ≡ true }
    requires shape { IsShape p.now }
    ensures { IfOk result (λ cells. cells.items ≡ (spec.part p.now x y w h).cells) }
{
    let mut cells = Vec::with_capacity(alloc, w * h)?;
    for j in 0..h {
        let row = p.row(y + j);
        cells.extend_from_slice(&row[x..x + w])?;
    }
    Ok(cells)
}
