//! The standard trees of the refuted pairs.
ghost use Rattle.std.specs.Prelude.{◌≡◌, ◌⊎◌, ◌+◌, ◌≤◌, ◌<◌, ◌++◌, ◌∷◌, [], None, Some, min, length, map, All, IfOk, IfErr, OnOk};
ghost use Rattle.wt_grid.specs.Order.{first_in};
ghost use Rattle.wt_refute.specs.Refutation.{node_count};
ghost use Rattle.wt_marker.specs.Forests.{HasGrownBy, with_more};
ghost use Rattle.wt_marker.specs.Derived.{IsReason, IsRefutable, tree_at, entry_of, spent_at, nodes_of};

use crate::DeriveEnd;
use std::alloc::{AllocError, Global};
use wt_mask::Sides;
use wt_refute::{BuildEnd, MAX_NODES, Refuted, build_tree_in, count_nodes};
use wt_tile::Axis;

/// Refutations with their trees, and the nodes of all trees that were built: at most one more than may be
/// kept. Once there are too many, no further tree is kept.
#[derive(Drop)]
pub struct Forest {
    pub entries: Vec<Refuted>,
    pub nodes: usize,
}

/// A sum of nodes, where no more than one beyond the limit is counted.
fn add_nodes(nodes: usize, more: usize) -> usize
    requires { nodes ≤ MAX_NODES + 1 }
    ensures { result ≡ with_more nodes more }
{
    (nodes + more.min(MAX_NODES + 1)).min(MAX_NODES + 1)
}

fn keep(forest: &mut Forest, entry: Refuted) -> Result<(), AllocError>
    ensures entries { OnOk result (forest.new.entries.items ≡ forest.old.entries.items ++ entry ∷ []) }
    ensures nodes { OnOk result (forest.new.nodes ≡ forest.old.nodes) }
{
    forest.entries.push(entry)?;
    Ok(())
}

/// Builds the tree of a pair, and keeps it as long as there are few nodes.
#[tactic(auto, using(crate::proofs::Keeping::kept_tree))]
fn plant(
    alloc: Global,
    sides: &Sides<'_>,
    axis: Axis,
    radius: u8,
    pair: (u16, u16),
    budget: u64,
    forest: &mut Forest,
) -> Result<(), DeriveEnd>
    requires radius { radius ≤ 4 }
    requires pair { IsRefutable sides.now.tiles.now axis radius pair }
    requires few { forest.old.nodes ≤ MAX_NODES + 1 }
    ensures nodes { OnOk result (forest.new.nodes ≡ with_more forest.old.nodes (node_count (tree_at sides.now.tiles.now radius axis pair))) }
    ensures entries { OnOk result (HasGrownBy (entry_of sides.now.tiles.now radius axis pair ∷ []) forest.old forest.new) }
    ensures unspent { OnOk result (spent_at sides.now.tiles.now radius budget axis pair ≡ None) }
    ensures refused { IfErr result (IsReason (spent_at sides.now.tiles.now radius budget axis pair)) }
{
    match build_tree_in(alloc, sides, axis, pair.0, pair.1, radius, &[], budget) {
        Err(BuildEnd::Spent) => Err(DeriveEnd::Spent {
            axis,
            a: pair.0,
            b: pair.1,
        }),
        Err(BuildEnd::OutOfMemory) => Err(DeriveEnd::OutOfMemory),
        Ok(tree) => {
            forest.nodes = add_nodes(forest.nodes, count_nodes(&tree));
            if forest.nodes > MAX_NODES {
                return Ok(());
            }
            let entry = Refuted {
                axis,
                a: pair.0,
                b: pair.1,
                radius,
                tree,
            };
            keep(forest, entry)?;
            Ok(())
        }
    }
}

/// Builds the trees of pairs of an axis.
pub fn plant_all(
    alloc: Global,
    sides: &Sides<'_>,
    axis: Axis,
    radius: u8,
    pairs: &[(u16, u16)],
    budget: u64,
    forest: &mut Forest,
) -> Result<(), DeriveEnd>
    requires radius { radius ≤ 4 }
    requires pairs { All (IsRefutable sides.now.tiles.now axis radius) pairs.now }
    requires few { forest.old.nodes ≤ MAX_NODES + 1 }
    ensures nodes { OnOk result (forest.new.nodes ≡ with_more forest.old.nodes (nodes_of sides.now.tiles.now radius axis pairs.now)) }
    ensures entries { OnOk result (HasGrownBy (map (entry_of sides.now.tiles.now radius axis) pairs.now) forest.old forest.new) }
    ensures unspent { OnOk result (first_in (spent_at sides.now.tiles.now radius budget axis) pairs.now ≡ None) }
    ensures refused { IfErr result (IsReason (first_in (spent_at sides.now.tiles.now radius budget axis) pairs.now)) }
{
    for pair in pairs {
        plant(alloc, sides, axis, radius, *pair, budget, forest)?;
    }
    Ok(())
}
