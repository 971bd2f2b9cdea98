//! The checker of refutation trees.
ghost use Rattle.std.specs.Prelude.{◌≡◌, ℕ, ◌+◌, ◌-◌, ◌*◌, ◌^◌, ◌<◌, ◌≤◌, [], ◌∷◌, length, None, Some, replicate, true};
ghost use Rattle.wt_refute.specs.Refutation.{node_count, tiles_in, held};
ghost use Rattle.wt_refute.specs.View.{refutation, children_view};
ghost use Rattle.wt_pattern.specs.Windows.{window_size};
ghost use Rattle.wt_refute.specs.Placed.{placed, window_of, tile_window};
ghost use Rattle.wt_refute.specs.Placed as placed_words;
ghost use Rattle.wt_refute.specs.Entries.{ascends};
ghost use Rattle.wt_refute.specs.Refutes.{first_wrong, tree_fault, tile_tree_fault, FaultsAt, IsWalk};
ghost use Rattle.wt_refute.specs.Refutes as refutes;

use crate::fitting::fit_mask;
use crate::known::has_entry;
use crate::window::{above, is_free, right_of, tile_in};
use crate::{Child, Refuted, Tree};
use wt_grid::MAX_TILES;
use wt_mask::{Sides, next_bit};
use wt_pattern::{MAX_CELLS, window_shape};
use wt_tile::{Axis, SetRef, Tile};

/// The first wrong node of a tree in preorder, counted from 0 at the root, saturating at the last value of usize.
#[derive(Clone, Copy, Debug, PartialEq, Eq)]
pub struct TreeFault {
    /// The number of the node in preorder, from 0.
    pub node: usize,
}

fn lies_inside(shape: (usize, usize), cell: usize, axis: Axis, radius: u8) -> bool
    requires radius { radius ≤ 4 }
    requires wide { 0 < shape.0 }
    requires low { cell < 2 ^ 32 }
    ensures { result ≡ refutes.lies_inside shape.0 shape.1 cell axis radius }
{
    let x = cell % shape.0;
    let y = cell / shape.0;
    let inner = window_shape(axis, radius);
    let radius = usize::from(radius);
    radius <= x && radius <= y && x - radius + inner.0 <= shape.0 && y - radius + inner.1 <= shape.1
}

fn next_placed(shape: (usize, usize), cells: &[Option<u16>], cell: usize, axis: Axis) -> Option<u16>
    requires wide { 0 < shape.0 }
    requires small { shape.0 < 2 ^ 32 }
    requires low { cell < 2 ^ 32 }
    ensures { result ≡ refutes.next_placed (placed shape cells.now) cell axis }
{
    match axis {
        Axis::One => right_of(shape, cells, cell),
        Axis::Two => above(shape, cells, cell),
    }
}

/// Whether a known entry of lower radius says that the tiles at the cell and next to it can't stand there.
#[tactic(auto, using(crate::proofs::Cited::cited_more))]
pub fn is_cited(
    radius: u8,
    known: &[Refuted],
    shape: (usize, usize),
    cells: &[Option<u16>],
    cell: usize,
    axis: Axis,
) -> bool
    requires wide { 0 < shape.0 }
    requires small { shape.0 < 2 ^ 32 }
    requires low { cell < 2 ^ 32 }
    requires radius { radius ≤ 4 }
    requires in_order { ascends known.now ≡ true }
    ensures { result ≡ refutes.is_cited radius known.now (placed shape cells.now) cell axis }
{
    let Some(a) = tile_in(shape, cells, cell) else {
        return false;
    };
    let Some(b) = next_placed(shape, cells, cell, axis) else {
        return false;
    };
    for below in 0..radius {
        if lies_inside(shape, cell, axis, below) && has_entry(below, axis, a, b, known) {
            return true;
        }
    }
    false
}

fn is_branching(
    sides: &Sides<'_>,
    shape: (usize, usize),
    cells: &[Option<u16>],
    cell: usize,
    children: &[Child],
) -> bool
    requires wide { 0 < shape.0 }
    requires small { shape.0 < 2 ^ 32 }
    requires low { cell < 2 ^ 32 }
    ensures { result ≡ refutes.is_branching sides.now.tiles.now (placed shape cells.now) cell (tiles_in (children_view children.now)) }
{
    if !is_free(shape, cells, cell) {
        return false;
    }
    let fit = fit_mask(sides, shape, cells, cell);
    let mut from = 0usize;
    for child in children {
        let Some(tile) = next_bit(&fit, from) else {
            return false;
        };
        if tile != usize::from(child.tile) {
            return false;
        }
        from = tile + 1;
    }
    match next_bit(&fit, from) {
        None => true,
        Some(_) => false,
    }
}

/// The number of nodes, or the first wrong one.
fn walk(
    sides: &Sides<'_>,
    radius: u8,
    known: &[Refuted],
    shape: (usize, usize),
    cells: &mut [Option<u16>],
    tree: &Tree,
) -> Result<usize, TreeFault>
    requires wide { 0 < shape.0 }
    requires small { shape.0 < 2 ^ 32 }
    requires radius { radius ≤ 4 }
    requires in_order { ascends known.now ≡ true }
    ensures same { cells.new ≡ cells.old }
    ensures judged { IsWalk result
        (first_wrong sides.now.tiles.now radius known.now (placed shape cells.old) (refutation tree.now))
        (held (node_count (refutation tree.now))) }
{
    match tree {
        Tree::Cite { cell, axis } => {
            if is_cited(radius, known, shape, cells, usize::from(*cell), *axis) {
                Ok(1)
            } else {
                Err(TreeFault { node: 0 })
            }
        }
        Tree::Branch { cell, children } => {
            let cell = usize::from(*cell);
            if !is_branching(sides, shape, cells, cell, children.as_slice()) {
                return Err(TreeFault { node: 0 });
            }
            let mut count = 1usize;
            for child in children.as_slice() {
                cells[cell] = Some(child.tile);
                let judged = walk(sides, radius, known, shape, cells, &child.tree);
                cells[cell] = None;
                match judged {
                    Ok(more) => count = count.saturating_add(more),
                    Err(fault) => {
                        return Err(TreeFault {
                            node: count.saturating_add(fault.node),
                        });
                    }
                }
            }
            Ok(count)
        }
    }
}

/// Places two tiles in the middle of their free window.
pub fn place_pair(
    axis: Axis,
    a: u16,
    b: u16,
    radius: u8,
    shape: (usize, usize),
    cells: &mut [Option<u16>],
)
    requires shape { shape ≡ window_size axis radius }
    requires free { cells.old ≡ replicate (shape.0 * shape.1) None }
    ensures { placed shape cells.new ≡ window_of axis a b radius }
{
    let middle = usize::from(radius) * shape.0 + usize::from(radius);
    cells[middle] = Some(a);
    cells[next_cell(axis, shape.0, middle)] = Some(b);
}

fn next_cell(axis: Axis, width: usize, cell: usize) -> usize
    requires small { width < 2 ^ 32 }
    requires low { cell < 2 ^ 32 }
    ensures { result ≡ placed_words.next_cell axis width cell }
{
    match axis {
        Axis::One => cell + 1,
        Axis::Two => cell + width,
    }
}

/// As many free cells as the greatest window has.
pub fn free_cells() -> [Option<u16>; MAX_CELLS]
    ensures { result ≡ replicate MAX_CELLS None }
{
    [None; MAX_CELLS]
}

/// Judges a tree for the window of radius `radius` round a and b, b following a along the axis, with these
/// known entries, which ascend by radius, axis, first and second tile: the first node, in preorder from 0,
/// that names a wrong cell, has other tiles than those that fit, or cites what no known entry of lower
/// radius says. Takes no memory. Where many trees of a set are judged, `check_tree_in` is faster.
#[tactic(auto, using(wt_tile::proofs::Sizes::few_tiles))]
pub fn check_tree(
    set: SetRef<'_>,
    axis: Axis,
    a: u16,
    b: u16,
    radius: u8,
    known: &[Refuted],
    tree: &Tree,
) -> Result<(), TreeFault>
    requires radius { radius ≤ 4 }
    requires in_order { ascends known.now ≡ true }
    ensures { FaultsAt result (tree_fault set.entry.list.now.tiles axis a b radius known.now tree.now) }
{
    check_tree_in(&Sides::new(set.tiles()), axis, a, b, radius, known, tree)
}

/// The same as `check_tree` with the masks of the set's tiles, which many trees can share.
#[tactic(auto, unfolding(crate::specs::Refutes::tree_fault))]
pub fn check_tree_in(
    sides: &Sides<'_>,
    axis: Axis,
    a: u16,
    b: u16,
    radius: u8,
    known: &[Refuted],
    tree: &Tree,
) -> Result<(), TreeFault>
    requires radius { radius ≤ 4 }
    requires in_order { ascends known.now ≡ true }
    ensures { FaultsAt result (tree_fault sides.now.tiles.now axis a b radius known.now tree.now) }
{
    let shape = window_shape(axis, radius);
    let mut all = free_cells();
    let cells = &mut all[..shape.0 * shape.1];
    place_pair(axis, a, b, radius, shape, cells);
    match walk(sides, radius, known, shape, cells, tree) {
        Ok(_) => Ok(()),
        Err(fault) => Err(fault),
    }
}

/// Judges a tree for the square window of radius `radius` round a tile, with no known entries: the first
/// node, in preorder from 0, that names a wrong cell, has other tiles than those that fit, or cites.
/// Takes no memory.
pub fn check_tile_tree(set: SetRef<'_>, tile: u16, radius: u8, tree: &Tree) -> Result<(), TreeFault>
    requires { radius ≤ 4 }
    ensures { FaultsAt result (tile_tree_fault set.entry.list.now.tiles tile radius tree.now) }
{
    check_tile(set.tiles(), tile, radius, tree)
}

/// The same for the tiles of the set.
#[tactic(auto, unfolding(crate::specs::Refutes::tile_tree_fault))]
fn check_tile(tiles: &[Tile], tile: u16, radius: u8, tree: &Tree) -> Result<(), TreeFault>
    requires radius { radius ≤ 4 }
    requires few { length tiles.now ≤ MAX_TILES }
    ensures { FaultsAt result (tile_tree_fault tiles.now tile radius tree.now) }
{
    let border = usize::from(radius);
    let side = border + border + 1;
    let mut all = free_cells();
    let cells = &mut all[..side * side];
    place_tile(tile, radius, (side, side), cells);
    match walk(&Sides::new(tiles), radius, &[], (side, side), cells, tree) {
        Ok(_) => Ok(()),
        Err(fault) => Err(fault),
    }
}

/// Places a tile in the middle of its free window.
fn place_tile(tile: u16, radius: u8, shape: (usize, usize), cells: &mut [Option<u16>])
    requires wide { shape.0 ≡ radius + radius + 1 }
    requires high { shape.1 ≡ radius + radius + 1 }
    requires free { cells.old ≡ replicate (shape.0 * shape.1) None }
    ensures { placed shape cells.new ≡ tile_window tile radius }
{
    cells[usize::from(radius) * shape.0 + usize::from(radius)] = Some(tile);
}
