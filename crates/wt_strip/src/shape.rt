//! The shape of layers.
ghost use Rattle.std.specs.Prelude.{◌≡◌, ◌≤◌, length, nat_le};
ghost use Rattle.std.specs.List.{list_all};
ghost use Rattle.wt_grid.specs.Order.{is_below};
ghost use Rattle.wt_grid.specs.Shifts.{fill};
ghost use Rattle.wt_strip.specs.Listed.{rows_in};
ghost use Rattle.wt_strip.specs.Exact;

use crate::Layers;
use crate::limits::{MAX_COLUMNS, MAX_LAYERS, MAX_ROWS};
use wt_seq::Seq;

/// Whether each cell is one of n tiles.
fn are_tiles(count: usize, cells: &[u16]) -> bool
    ensures { result ≡ list_all (is_below count) cells.now }
{
    for cell in cells {
        if usize::from(*cell) >= count {
            return false;
        }
    }
    true
}

/// Whether cells are whole rows of tiles.
fn are_rows(count: usize, w: usize, cells: &[u16]) -> bool
    requires { 1 ≤ w }
    ensures { result ≡ Exact.are_rows count w cells.now }
{
    cells.len() % w == 0 && are_tiles(count, cells)
}

/// Whether each layer is one of whole rows of tiles.
fn are_layers(count: usize, w: usize, layers: &[Seq<u16>]) -> bool
    requires { 1 ≤ w }
    ensures { result ≡ list_all (Exact.are_rows count w) layers.now }
{
    for cells in layers {
        if !are_rows(count, w, cells.as_slice()) {
            return false;
        }
    }
    true
}

/// Whether all layers together have at most as many rows as they may.
fn are_few(w: usize, layers: &[Seq<u16>]) -> bool
    requires { 1 ≤ w }
    ensures { result ≡ nat_le (fill (rows_in w) layers.now) MAX_ROWS }
{
    let mut left = MAX_ROWS;
    for cells in layers {
        let rows = cells.as_slice().len() / w;
        if rows > left {
            return false;
        }
        left -= rows;
    }
    true
}

/// Whether the last layer is empty and no other.
fn ends_empty(layers: &[Seq<u16>]) -> bool
    ensures { result ≡ Exact.ends_empty layers.now }
{
    for (n, cells) in layers.iter().enumerate() {
        if cells.as_slice().is_empty() {
            return n + 1 == layers.len();
        }
    }
    false
}

/// Whether layers are within the limits, of whole rows of tiles, and the last is the only empty one.
pub fn is_shaped(count: usize, layers: &Layers) -> bool
    ensures { result ≡ Exact.is_shaped count layers.now }
{
    let w = layers.width;
    let list = layers.layers.as_slice();
    1 <= w
        && w <= MAX_COLUMNS
        && 1 <= list.len()
        && list.len() <= MAX_LAYERS
        && are_layers(count, w, list)
        && are_few(w, list)
        && ends_empty(list)
}
