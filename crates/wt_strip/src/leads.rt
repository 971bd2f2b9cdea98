//! Rows that stand for the rows of a layer: upon them the same rows can be laid, and rows that show the same colours to
//! the north count once.
ghost use Rattle.std.specs.Prelude.{◌≡◌, ◌≤◌, ℕ, length, IfOk};
ghost use Rattle.wt_tile.specs.Matching.{matches};
ghost use Rattle.wt_strip.specs.Listed.{rows_in, IsAscending};
ghost use Rattle.wt_strip.specs.Walks.{ShowAlike, BearNoOther};

use crate::gather::push_row;
use crate::limits::MAX_COLUMNS;
use crate::rows::row;
use crate::walk::bearing_from;
use std::alloc::{AllocError, Global};
use wt_mask::{Sides, Way, next_bit};
use wt_tile::Axis;

/// The least tile that shows the same colour to the north as a tile above which one may stand; another tile stands for
/// itself.
fn lead(sides: &Sides<'_>, a: u16) -> u16
    ensures { (t : ℕ) → matches sides.now.tiles.now Axis.Two result t ≡ matches sides.now.tiles.now Axis.Two a t }
{
    let Some(u) = next_bit(&sides.beside(Way::Up, a), 0) else {
        return a;
    };
    let Some(t) = next_bit(&sides.beside(Way::Down, u as u16), 0) else {
        return a;
    };
    t as u16
}

/// For each tile of a row the one that stands for it.
fn lead_row(sides: &Sides<'_>, p: &[u16]) -> [u16; MAX_COLUMNS]
    requires narrow { length p.now ≤ MAX_COLUMNS }
    ensures long { length result ≡ MAX_COLUMNS }
    ensures same { ShowAlike sides.now.tiles.now (length p.now) result p.now }
{
    let mut leads = [0u16; MAX_COLUMNS];
    for x in 0..p.len() {
        leads[x] = lead(sides, p[x]);
    }
    leads
}

/// Rows upon which the same valid rows can be laid as upon ascending rows, one for each of these upon which one can.
pub fn lead_rows(
    alloc: Global,
    sides: &Sides<'_>,
    w: usize,
    below: &[u16],
) -> Result<Vec<u16>, AllocError>
    requires wide { 1 ≤ w }
    requires narrow { w ≤ MAX_COLUMNS }
    requires ascending { IsAscending w below.now (rows_in w below.now) }
    ensures upon { IfOk result (λ leads. BearNoOther sides.now.tiles.now w leads.items below.now) }
    ensures all { IfOk result (λ leads. BearNoOther sides.now.tiles.now w below.now leads.items) }
{
    let mut leads = Vec::new(alloc);
    let mut r = bearing_from(sides, w, below, 0);
    'rows: while r < below.len() / w {
        let lead = lead_row(sides, row(w, below, r));
        push_row(w, &mut leads, &lead[..w])?;
        r = bearing_from(sides, w, below, r + 1);
    }
    Ok(leads)
}
