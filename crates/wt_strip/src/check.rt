//! The check of layers.
ghost use Rattle.std.specs.Prelude.{◌≡◌, ◌<◌, ◌≤◌, ◌+◌, ◌%◌, ℕ, List, true, false, length, slice_index, IfOk, MatchOption, MatchResult};
ghost use Rattle.std.specs.List.{list_all};
ghost use Rattle.wt_grid.specs.Order.{is_below};
ghost use Rattle.wt_strip.specs.Layers.{IsRow, IsUnder, MatchesAcross, IsMismatch};
ghost use Rattle.wt_strip.specs.Listed.{rows_in, row_at, IsAscending, IsListed, IsUpon, NoneUnder, AllRows};
ghost use Rattle.wt_strip.specs.Exact.{IsStranger, HasMissing, IsExact, IsStripFault, TellsLayer, Forbids};

use crate::limits::{MAX_COLUMNS, MAX_LAYERS};
use crate::rows::{drop_in, past_alike, row};
use crate::shape::is_shaped;
use crate::walk::{all_allowed, allow_upon, bearing_from, misses, none_allowed};
use crate::{Layers, StripFault};
use wt_mask::Sides;
use wt_tile::{Axis, SetRef, Tile, is_match};

/// Whether a row's tiles match from left to right.
fn is_across(tiles: &[Tile], q: &[u16]) -> bool
    ensures valid { result ≡ true → MatchesAcross tiles.now q.now }
    ensures fault { result ≡ false → MatchesAcross tiles.now q.now → ⊥ }
{
    for x in 1..q.len() {
        if !is_match(tiles, Axis::One, q[x - 1], q[x]) {
            return false;
        }
    }
    true
}

/// The first column in which a row doesn't match one above it, of its length.
fn clash(tiles: &[Tile], p: &[u16], q: &[u16]) -> Option<usize>
    requires { length p.now ≡ length q.now }
    ensures { MatchOption result (IsUnder tiles.now (length q.now) p.now q.now) (IsMismatch tiles.now p.now q.now) }
{
    for x in 0..q.len() {
        if !is_match(tiles, Axis::Two, p[x], q[x]) {
            return Some(x);
        }
    }
    None
}

/// Whether a row can be laid upon one of the rows below. Where one of them doesn't match it, all that begin alike are
/// passed over.
fn has_under(tiles: &[Tile], w: usize, below: &[u16], q: &[u16]) -> bool
    requires wide { 1 ≤ w }
    requires long { length q.now ≡ w }
    requires ascending { IsAscending w below.now (rows_in w below.now) }
    ensures under { result ≡ true → (r : ℕ) × (r < rows_in w below.now) × IsUnder tiles.now w (row_at w below.now r) q.now }
    ensures fault { result ≡ false → NoneUnder tiles.now w below.now q.now }
{
    let mut r = 0usize;
    'rows: while r < below.len() / w {
        match clash(tiles, row(w, below, r), q) {
            Some(x) => r = past_alike(w, below, r, x + 1),
            None => return true,
        }
    }
    false
}

/// Whether a row of tiles is valid and can be laid upon the rows below; upon no layer, whether it is valid.
fn is_upon(tiles: &[Tile], w: usize, n: usize, below: &[u16], q: &[u16]) -> bool
    requires wide { 1 ≤ w }
    requires long { length q.now ≡ w }
    requires tiles { (x : ℕ) → x < w → slice_index q.now x < length tiles.now }
    requires ascending { IsAscending w below.now (rows_in w below.now) }
    ensures upon { result ≡ true → IsUpon tiles.now w n below.now q.now }
    ensures fault { result ≡ false → IsUpon tiles.now w n below.now q.now → ⊥ }
{
    if !is_across(tiles, q) {
        return false;
    }
    if n == 0 {
        return true;
    }
    has_under(tiles, w, below, q)
}

/// The first row that isn't valid, or can't be laid upon a row below.
fn stranger_in(tiles: &[Tile], w: usize, n: usize, below: &[u16], cells: &[u16]) -> Option<usize>
    requires wide { 1 ≤ w }
    requires tiles { list_all (is_below (length tiles.now)) cells.now ≡ true }
    requires ascending { IsAscending w below.now (rows_in w below.now) }
    ensures { MatchOption result (AllRows (IsUpon tiles.now w n below.now) w cells.now) (IsStranger (IsUpon tiles.now w n below.now) w cells.now) }
{
    for r in 0..cells.len() / w {
        if !is_upon(tiles, w, n, below, row(w, cells, r)) {
            return Some(r);
        }
    }
    None
}

/// Whether a valid row upon the rows below isn't listed.
fn has_missing(sides: &Sides<'_>, w: usize, n: usize, below: &[u16], cells: &[u16]) -> bool
    requires wide { 1 ≤ w }
    requires narrow { w ≤ MAX_COLUMNS }
    requires below { IsAscending w below.now (rows_in w below.now) }
    requires ascending { IsAscending w cells.now (rows_in w cells.now) }
    ensures missing { result ≡ true → HasMissing (IsUpon sides.now.tiles.now w n below.now) w cells.now }
    ensures whole { result ≡ false → (q : List ℕ) → IsUpon sides.now.tiles.now w n below.now q → IsListed w cells.now q }
{
    if n == 0 {
        return misses(sides, w, &mut all_allowed(sides), cells);
    }
    let mut allowed = none_allowed();
    let mut r = bearing_from(sides, w, below, 0);
    'rows: while r < below.len() / w {
        allow_upon(sides, row(w, below, r), &mut allowed);
        if misses(sides, w, &mut allowed, cells) {
            return true;
        }
        r = bearing_from(sides, w, below, r + 1);
    }
    false
}

/// Whether a layer lists the valid rows upon the rows below, or its first fault.
fn check_layer(
    sides: &Sides<'_>,
    w: usize,
    n: usize,
    below: &[u16],
    cells: &[u16],
) -> Result<(), StripFault>
    requires wide { 1 ≤ w }
    requires narrow { w ≤ MAX_COLUMNS }
    requires low { n < MAX_LAYERS }
    requires tiles { list_all (is_below (length sides.now.tiles.now)) cells.now ≡ true }
    requires ascending { IsAscending w below.now (rows_in w below.now) }
    ensures { TellsLayer (IsUpon sides.now.tiles.now w n below.now) w cells.now (n + 1) result }
{
    let layer = n + 1;
    if let Some(row) = drop_in(w, cells) {
        return Err(StripFault::Order { layer, row });
    }
    if let Some(row) = stranger_in(sides.tiles, w, n, below, cells) {
        return Err(StripFault::Row { layer, row });
    }
    if has_missing(sides, w, n, below, cells) {
        return Err(StripFault::Missing { layer });
    }
    Ok(())
}

/// Whether layers are exact: from the valid rows upwards, for each layer all valid rows that can be laid upon a row of the
/// layer below, up to the first layer that has none. No valid pattern of at least their width and of at least as many rows
/// as they are layers exists then. Else their first fault: the shape first, then for each layer the order of its rows, a row
/// that isn't of the layer, and a row of the layer that isn't listed. Takes no memory.
pub fn check_strip(set: SetRef, layers: &Layers) -> Result<(), StripFault>
    ensures fault { MatchResult result (λ u. IsExact set.entry.list.now.tiles layers.now) (IsStripFault set.entry.list.now.tiles layers.now) }
    ensures forbids { IfOk result (λ u. Forbids set.entry.list.now.tiles layers.now) }
{
    if !is_shaped(set.len(), layers) {
        return Err(StripFault::Shape);
    }
    let sides = Sides::new(set.tiles());
    let mut below: &[u16] = &[];
    for (n, cells) in layers.layers.as_slice().iter().enumerate() {
        let cells = cells.as_slice();
        if let Err(fault) = check_layer(&sides, layers.width, n, below, cells) {
            return Err(fault);
        }
        below = cells;
    }
    Ok(())
}
