//! Standard trees, built.
ghost use Rattle.std.specs.Prelude.{◌≡◌, ◌^◌, ◌<◌, ◌≤◌, ◌++◌, ◌∷◌, [], length, IfOk, OnOk, IsErrOf, true};
ghost use Rattle.wt_tile.specs.Matching.{matches};
ghost use Rattle.wt_refute.specs.Refutation.{node_count, branch, no_more};
ghost use Rattle.wt_refute.specs.View.{refutation};
ghost use Rattle.wt_refute.specs.Placed.{placed};
ghost use Rattle.wt_refute.specs.Fitted.{AreCounted};
ghost use Rattle.wt_refute.specs.Entries.{ascends};
ghost use Rattle.wt_refute.specs.Built.{IsGrown, RefutesEmpty, standard_nodes};
ghost use Rattle.wt_refute.specs.Standard.{tree_within, standard_tree};

use crate::check::{free_cells, place_pair};
use crate::choice::{first_citation, tightest};
use crate::fitting::{Counts, count_all, fit_mask, put};
use crate::{Child, Refuted, Tree};
use sqlite_items::Items;
use std::alloc::Global;
use wt_mask::{Sides, next_bit};
use wt_pattern::{MAX_CELLS, window_shape};
use wt_tile::{Axis, SetRef};

/// Why no tree was built.
#[derive(Clone, Copy, Debug, PartialEq, Eq)]
pub enum BuildEnd {
    /// The standard tree has more nodes than the budget.
    Spent,
    /// No memory was left.
    OutOfMemory,
}

fn leaf(alloc: Global) -> Tree
    ensures { refutation result ≡ branch 0 no_more }
{
    Tree::Branch {
        cell: 0,
        children: Items::new(alloc),
    }
}

fn add_child(children: &mut Items<Child>, tile: u16, tree: Tree) -> Result<(), BuildEnd>
    ensures ok { OnOk result (children.new ≡ children.old ++ (record { tile = tile; tree = tree }) ∷ []) }
    ensures unspent { IsErrOf result BuildEnd.Spent → ⊥ }
{
    match children.push(Child { tile, tree }) {
        Ok(()) => Ok(()),
        Err(_) => Err(BuildEnd::OutOfMemory),
    }
}

/// The tree within a depth, and what is left of the budget.
fn grow(
    alloc: Global,
    sides: &Sides<'_>,
    radius: u8,
    known: &[Refuted],
    shape: (usize, usize),
    cells: &mut [Option<u16>],
    counts: &Counts,
    depth: usize,
    budget: u64,
) -> Result<(Tree, u64), BuildEnd>
    requires wide { 0 < shape.0 }
    requires small { shape.0 < 2 ^ 32 }
    requires few_cells { length cells.old ≤ MAX_CELLS }
    requires radius { radius ≤ 4 }
    requires in_order { ascends known.now ≡ true }
    requires counted { AreCounted sides.now.tiles.now (placed shape cells.old) counts.now }
    ensures same { cells.new ≡ cells.old }
    ensures ok { IfOk result (IsGrown (tree_within sides.now.tiles.now radius known.now depth (placed shape cells.old)) budget) }
    ensures spent { IsErrOf result BuildEnd.Spent → budget < node_count (tree_within sides.now.tiles.now radius known.now depth (placed shape cells.old)) }
{
    if budget == 0 {
        return Err(BuildEnd::Spent);
    }
    let mut left = budget - 1;
    if depth == 0 {
        return Ok((leaf(alloc), left));
    }
    let below = depth - 1;
    if let Some((cell, axis)) = first_citation(radius, known, shape, cells) {
        return Ok((Tree::Cite { cell, axis }, left));
    }
    let Some(cell) = tightest(shape, cells, counts) else {
        return Ok((leaf(alloc), left));
    };
    let at = usize::from(cell);
    let fit = fit_mask(sides, shape, cells, at);
    let mut children = Items::new(alloc);
    let mut from = 0usize;
    'tiles: while let Some(tile) = next_bit(&fit, from) {
        let mut next = *counts;
        put(sides, shape, cells, &mut next, at, tile as u16);
        let grown = grow(
            alloc, sides, radius, known, shape, cells, &next, below, left,
        );
        cells[at] = None;
        match grown {
            Err(end) => return Err(end),
            Ok((tree, rest)) => {
                add_child(&mut children, tile as u16, tree)?;
                left = rest;
            }
        }
        from = tile + 1;
    }
    Ok((Tree::Branch { cell, children }, left))
}

/// Builds the standard tree of the window of radius `radius` round a and b, b following a along the axis:
/// at each node the right citation of a known entry with the least cell number, axis 1 before axis 2, else
/// a branch on the free cell with the fewest fitting tiles, the least cell number first. The known entries
/// ascend by radius, axis, first and second tile. `Spent` exactly where that tree has more nodes than the
/// budget, if memory lasts. Both tiles are in range and match. Where two tiles of a set match and their
/// window is empty, their standard tree refutes it, whatever entries are known.
#[tactic(auto, using(wt_tile::proofs::Sizes::few_tiles))]
pub fn build_tree(
    alloc: Global,
    set: SetRef<'_>,
    axis: Axis,
    a: u16,
    b: u16,
    radius: u8,
    known: &[Refuted],
    budget: u64,
) -> Result<Tree, BuildEnd>
    requires first { a < length set.list.now.tiles }
    requires second { b < length set.list.now.tiles }
    requires matched { matches set.list.now.tiles axis a b ≡ true }
    requires radius { radius ≤ 4 }
    requires in_order { ascends known.now ≡ true }
    ensures tree { IfOk result (λ t. refutation t ≡ standard_tree set.entry.list.now.tiles axis a b radius known.now) }
    ensures refutes { IfOk result (RefutesEmpty set.entry.list.now.tiles axis a b radius known.now) }
    ensures enough { IfOk result (λ t. standard_nodes set.entry.list.now.tiles axis a b radius known.now ≤ budget) }
    ensures spent { IsErrOf result BuildEnd.Spent → budget < standard_nodes set.entry.list.now.tiles axis a b radius known.now }
{
    let sides = Sides::new(set.tiles());
    build_tree_in(alloc, &sides, axis, a, b, radius, known, budget)
}

/// The same as `build_tree` with the masks of the set's tiles, which many trees can share.
pub fn build_tree_in(
    alloc: Global,
    sides: &Sides<'_>,
    axis: Axis,
    a: u16,
    b: u16,
    radius: u8,
    known: &[Refuted],
    budget: u64,
) -> Result<Tree, BuildEnd>
    requires first { a < length sides.now.tiles.now }
    requires second { b < length sides.now.tiles.now }
    requires matched { matches sides.now.tiles.now axis a b ≡ true }
    requires radius { radius ≤ 4 }
    requires in_order { ascends known.now ≡ true }
    ensures tree { IfOk result (λ t. refutation t ≡ standard_tree sides.now.tiles.now axis a b radius known.now) }
    ensures refutes { IfOk result (RefutesEmpty sides.now.tiles.now axis a b radius known.now) }
    ensures enough { IfOk result (λ t. standard_nodes sides.now.tiles.now axis a b radius known.now ≤ budget) }
    ensures spent { IsErrOf result BuildEnd.Spent → budget < standard_nodes sides.now.tiles.now axis a b radius known.now }
{
    let shape = window_shape(axis, radius);
    let mut all = free_cells();
    let cells = &mut all[..shape.0 * shape.1];
    place_pair(axis, a, b, radius, shape, cells);
    let depth = cells.len();
    let counts = count_all(sides, shape, cells);
    match grow(
        alloc, sides, radius, known, shape, cells, &counts, depth, budget,
    ) {
        Ok((tree, _)) => Ok(tree),
        Err(end) => Err(end),
    }
}
