// The tree of a line, within its limits.
ghost use Rattle.std.specs.Prelude.{◌≡◌, ◌≤◌, ◌+◌, true, None, IfOk, map};
ghost use Rattle.wt_line.specs.Given.{left, held_number};
ghost use Rattle.wt_line.specs.Faults.{ReadsLine, LineFails};
ghost use Rattle.wt_refute.specs.Refutation.{node_count, count_in, no_more};
ghost use Rattle.wt_refute.specs.View.{refutation, child_view};
ghost use Rattle.wt_cert.specs.Trees.{tile_left, cell_left, ending_left, tree_in, branches_in};
ghost use Rattle.wt_cert.specs.Seen.{ending_view, led_by};
ghost use Rattle.wt_line.specs.Left.{tokens_left};

use crate::limits::MAX_NODES;
use sqlite_items::Items;
use std::alloc::Global;
use wt_line::{LineFault, MOST, Rest, What, next_number, next_token};
use wt_refute::{Child, Tree};
use wt_tile::Axis;

const MAX_CHILDREN: u64 = 256;

/// What stands after the cell of a node.
#[derive(Clone, Copy)]
pub enum Ending {
    /// How many children it has, at most 256.
    Children(u16),
    /// The axis along which it cites.
    Cites(Axis),
}

/// A tile's number, and what is left of the line.
#[tactic(auto, using(crate::proofs::Heads::no_tile, crate::proofs::Heads::tile_past, crate::proofs::Heads::tile_within))]
fn tile_number(rest: Rest<'_>) -> Result<(u16, Rest<'_>), LineFault>
    ensures { ReadsLine (λ x. (x.0, tokens_left x.1)) result (tile_left (tokens_left rest.entry)) }
{
    let Some((tile, rest)) = next_number(rest) else {
        return Err(LineFault::Wrong);
    };
    if tile > u64::from(MOST) {
        return Err(LineFault::Past(What::Number));
    }
    Ok((tile as u16, rest))
}

/// What is wrong with a node for which there is no room.
#[tactic(auto, using(crate::proofs::Heads::none_full, crate::proofs::Heads::one_full, crate::proofs::Heads::cell_full))]
fn no_room(nodes: u32, rest: Rest<'_>) -> LineFault
    requires { MAX_NODES ≤ nodes }
    ensures { LineFails result (cell_left nodes (tokens_left rest.entry)) }
{
    let Some((_, rest)) = next_token(rest) else {
        return LineFault::Wrong;
    };
    if rest.more {
        LineFault::Past(What::Nodes)
    } else {
        LineFault::Wrong
    }
}

/// The cell of a node, where n nodes came before, and what is left of the line.
#[tactic(auto, using(crate::proofs::Heads::no_cell, crate::proofs::Heads::cell_alone, crate::proofs::Heads::cell_past, crate::proofs::Heads::cell_within))]
fn cell_number(nodes: u32, rest: Rest<'_>) -> Result<(u16, Rest<'_>), LineFault>
    ensures read { ReadsLine (λ x. (x.0, tokens_left x.1)) result (cell_left nodes (tokens_left rest.entry)) }
    ensures room { IfOk result (λ x. nodes + 1 ≤ MAX_NODES) }
{
    if nodes >= MAX_NODES {
        return Err(no_room(nodes, rest));
    }
    let Some((cell, rest)) = next_number(rest) else {
        return Err(LineFault::Wrong);
    };
    if !rest.more {
        return Err(LineFault::Wrong);
    }
    if cell > u64::from(MOST) {
        return Err(LineFault::Past(What::Number));
    }
    Ok((cell as u16, rest))
}

/// The axis along which a node cites, and what is left of the line.
#[tactic(auto, using(crate::proofs::Heads::none_ends, crate::proofs::Heads::no_spelling))]
fn citation(rest: Rest<'_>) -> Result<(Ending, Rest<'_>), LineFault>
    requires { held_number (tokens_left rest) ≡ None }
    ensures { ReadsLine (λ x. (ending_view x.0, tokens_left x.1)) result (ending_left true (tokens_left rest.entry)) }
{
    let Some((token, rest)) = next_token(rest) else {
        return Err(LineFault::Wrong);
    };
    if token == b"c1".as_slice() {
        return Ok((Ending::Cites(Axis::One), rest));
    }
    if token == b"c2".as_slice() {
        return Ok((Ending::Cites(Axis::Two), rest));
    }
    Err(LineFault::Wrong)
}

/// What stands after the cell of a node, and what is left of the line.
#[tactic(auto, using(crate::proofs::Heads::count_past, crate::proofs::Heads::count_within, crate::proofs::Heads::no_count))]
fn node_ending(citing: bool, rest: Rest<'_>) -> Result<(Ending, Rest<'_>), LineFault>
    ensures { ReadsLine (λ x. (ending_view x.0, tokens_left x.1)) result (ending_left citing (tokens_left rest.entry)) }
{
    let Some((count, after)) = next_number(rest) else {
        if citing {
            return citation(rest);
        }
        return Err(LineFault::Wrong);
    };
    if count > MAX_CHILDREN {
        return Err(LineFault::Past(What::Tiles));
    }
    Ok((Ending::Children(count as u16), after))
}

/// A tree of at most d levels, where n nodes came before.
#[cycle(grow)]
pub fn tree_within(
    alloc: Global,
    citing: bool,
    levels: u8,
    nodes: u32,
    rest: Rest<'_>,
) -> Result<(Tree, u32, Rest<'_>), LineFault>
    ensures read { ReadsLine (λ x. (refutation x.0, tokens_left x.2)) result (tree_in citing levels nodes (tokens_left rest.entry)) }
    ensures nodes { IfOk result (λ x. x.1 ≡ nodes + node_count (refutation x.0)) }
    ensures room { IfOk result (λ x. x.1 ≤ MAX_NODES) }
{
    if levels == 0 {
        if nodes < MAX_NODES {
            return Err(LineFault::Past(What::Depth));
        }
        return Err(LineFault::Past(What::Nodes));
    }
    let (cell, rest) = cell_number(nodes, rest)?;
    let (ending, rest) = node_ending(citing, rest)?;
    match ending {
        Ending::Cites(axis) => Ok((Tree::Cite { cell, axis }, nodes + 1, rest)),
        Ending::Children(count) => {
            let (children, nodes, rest) = branches_within(
                alloc,
                citing,
                levels - 1,
                count,
                nodes + 1,
                rest,
            )?;
            Ok((Tree::Branch { cell, children }, nodes, rest))
        }
    }
}

/// n branches, each with a tree of at most d levels.
#[cycle(grow)]
fn branches_within(
    alloc: Global,
    citing: bool,
    levels: u8,
    count: u16,
    nodes: u32,
    rest: Rest<'_>,
) -> Result<(Items<Child>, u32, Rest<'_>), LineFault>
    requires { nodes ≤ MAX_NODES }
    ensures read { ReadsLine (λ x. (led_by (map child_view x.0) no_more, tokens_left x.2)) result (branches_in (tree_in citing levels) count nodes (tokens_left rest.entry)) }
    ensures nodes { IfOk result (λ x. x.1 ≡ nodes + count_in (led_by (map child_view x.0) no_more)) }
    ensures room { IfOk result (λ x. x.1 ≤ MAX_NODES) }
{
    // Most nodes have few children, so room for more than there are would be most of a tree's memory.
    let Ok(room) = Vec::with_capacity(alloc, usize::from(count)) else {
        return Err(LineFault::OutOfMemory);
    };
    let mut children = Items::from_vec(room);
    let mut total = nodes;
    let mut left = rest;
    for _ in 0..count {
        let (tile, after) = tile_number(left)?;
        let (tree, grown, after) = tree_within(alloc, citing, levels, total, after)?;
        children.push(Child { tile, tree })?;
        total = grown;
        left = after;
    }
    Ok((children, total, left))
}
