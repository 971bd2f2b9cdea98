//! The line of a window whose search is spent.
ghost use Rattle.std.specs.Prelude.{◌≡◌, IfOk, string_bytes};
ghost use Rattle.wt_session.specs.Tables as spec;

use std::alloc::{AllocError, Global};
use wt_grid::axis_number;
use wt_tile::Axis;

/// The line of a window whose search is spent.
pub fn spent_text(alloc: Global, axis: Axis, a: u16, b: u16) -> Result<String, AllocError>
    ensures { IfOk result (λ text. string_bytes text ≡ spec.spent_text axis a b) }
{
    let axis = axis_number(axis);
    format!(in alloc; "spent axis {axis} pair {a} {b}\n")
}
