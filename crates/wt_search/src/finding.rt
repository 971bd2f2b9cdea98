//! The search, level by level.
ghost use Rattle.std.specs.Prelude.{◌≡◌, ◌⊎◌, ◌<◌, ◌≤◌, ◌∷◌, ◌++◌, ◌+◌, [], ℕ, List, length, drop, option_map, IfSome, IfOk, IfErr, Some, None, Ok, Err};
ghost use Rattle.wt_chain.specs.Limits.{nodes_with};
ghost use Rattle.wt_refute.specs.Refutation.{node_count};
ghost use Rattle.wt_refute.specs.View.{refutation};
ghost use Rattle.wt_step.specs.declared.raw.RawLink.TheVariants.{Marker};
ghost use Rattle.wt_chain.specs.Sets.{IsRenamed, last_set, set_at};
ghost use Rattle.wt_chain.specs.Chains as chains;
ghost use Rattle.wt_search.specs.declared.end.SearchEnd.TheVariants as ends;
ghost use Rattle.wt_search.specs.Asked.{asked, EndsAtZero};
ghost use Rattle.wt_search.specs.Found.{limited, after_meeting, at_start, meeting, going, over, next, MayAnswerSearch, links_of, MayEndNext};
ghost use Rattle.wt_search.specs.Found as spec;
ghost use Rattle.wt_search.specs.States.{state_of, HasComeTo};

use crate::level::level_step;
use crate::{MAX_AXES, MAX_LEVELS, MAX_NODES, SearchEnd};
use std::alloc::{AllocError, Global};
use wt_bijection::equivalent;
use wt_chain::{Accepted, Chain, PushFault};
use wt_refute::{Refuted, Tree, count_nodes};
use wt_step::{Link, Step};
use wt_tile::{Axis, SetRef, Side};

/// The nodes so far with those of one more tree, or none where they are more than the limit.
pub fn nodes_after(nodes: usize, tree: &Tree) -> Option<usize>
    requires { nodes ≤ MAX_NODES }
    ensures { result ≡ limited (nodes + node_count (refutation tree.now)) }
{
    let count = count_nodes(tree);
    if count > MAX_NODES - nodes {
        return None;
    }
    Some(nodes + count)
}

/// The same with those of several.
fn more_nodes(nodes: usize, refuted: &[Refuted]) -> Option<usize>
    requires { nodes ≤ MAX_NODES }
    ensures value { result ≡ limited (nodes_with nodes refuted.now) }
    ensures few { IfSome result (λ n. n ≤ MAX_NODES) }
{
    let mut sum = nodes;
    for entry in refuted {
        match nodes_after(sum, &entry.tree) {
            None => return None,
            Some(more) => sum = more,
        }
    }
    Some(sum)
}

/// The chain with one step more, which takes apart its last set. Fails only where memory runs out.
fn pushed(alloc: Global, chain: Option<Chain>, step: Step) -> Result<Chain, AllocError>
    requires { chains.push_fault (links_of chain) (Marker step) ≡ None }
    ensures { IfOk result (λ longer. longer ≡ links_of chain ++ Marker step ∷ []) }
{
    let link = Link::marker(step);
    match chain {
        None => match Chain::start(alloc, link) {
            Ok(longer) => Ok(longer),
            Err(_) => Err(AllocError),
        },
        Some(chain) => match chain.push_step(link) {
            Ok(longer) => Ok(longer),
            Err((_, _, PushFault::OutOfMemory)) => Err(AllocError),
            Err((_, _, PushFault::NotNext | PushFault::TooMany)) => unreachable!(),
        },
    }
}

/// A level, with the least renaming of the last set onto its set.
fn meets_at(
    alloc: Global,
    last: SetRef<'_>,
    chain: &Chain,
    level: u16,
) -> Result<Option<(u16, Vec<u16>)>, AllocError>
    requires last { set_at chain.now (length chain.now) ≡ Some last.list.now }
    requires inside { level < length chain.now }
    ensures { IfOk result (λ met. option_map (λ m. at_start m.0 m.1.items) met ≡ spec.meets_at chain.now level) }
{
    match equivalent(alloc, last, chain.set(usize::from(level)))? {
        None => Ok(None),
        Some(renaming) => Ok(Some((level, renaming))),
    }
}

/// The first level whose set the last one is equivalent to, with the least renaming.
#[tactic(auto, using(wt_grid::proofs::First::first_more))]
fn first_meeting(alloc: Global, chain: &Chain) -> Result<Option<(u16, Vec<u16>)>, AllocError>
    ensures { IfOk result (λ met. option_map (λ m. at_start m.0 m.1.items) met ≡ meeting chain.now) }
{
    let last = chain.set(chain.steps());
    for level in 0..chain.steps() as u16 {
        if let Some(met) = meets_at(alloc, last, chain, level)? {
            return Ok(Some(met));
        }
    }
    Ok(None)
}

/// The chain closed there, where images grow.
fn closed(chain: Chain, start: u16, renaming: Vec<u16>) -> Result<Accepted, SearchEnd>
    requires { IsRenamed (drop start chain) renaming.items }
    ensures { result ≡ spec.closed chain (at_start start renaming.items) }
{
    match chain.expansion(start, &renaming) {
        None => Err(SearchEnd::NotGrowing {
            start: usize::from(start),
        }),
        Some(expansion) => match chain.close(start, renaming, expansion) {
            Ok(accepted) => Ok(accepted),
            Err(_) => unreachable!(),
        },
    }
}

/// How far a search has come: it goes on with these steps, whose trees have n nodes, or it has found a chain.
#[derive(Drop)]
pub enum Progress {
    Going { chain: Chain, nodes: usize },
    Found(Accepted),
}

/// The set of the level that a search has come to.
fn current<'a>(set: SetRef<'a>, chain: &'a Option<Chain>) -> SetRef<'a>
    ensures { result.list.now ≡ last_set set.entry.list.now (links_of chain.now) }
{
    match chain {
        None => set,
        Some(chain) => chain.set(chain.steps()),
    }
}

/// How far the search is with these steps: the chain is closed where a set has come again.
fn met(alloc: Global, chain: Chain, nodes: usize) -> Result<Progress, SearchEnd>
    requires { nodes ≤ MAX_NODES }
    ensures ok { IfOk result (λ p. after_meeting chain nodes (meeting chain) ≡ state_of p) }
    ensures come { IfOk result (HasComeTo (length chain)) }
    ensures err { IfErr result (λ e. (e ≡ ends.OutOfMemory) ⊎ (after_meeting chain nodes (meeting chain) ≡ over (Err e))) }
{
    let Ok(met) = first_meeting(alloc, &chain) else {
        return Err(SearchEnd::OutOfMemory);
    };
    let Some((start, renaming)) = met else {
        return Ok(Progress::Going { chain, nodes });
    };
    match closed(chain, start, renaming) {
        Ok(accepted) => Ok(Progress::Found(accepted)),
        Err(end) => Err(end),
    }
}

/// The search with one step more, which takes apart the last set.
fn with_step(
    alloc: Global,
    chain: Option<Chain>,
    nodes: usize,
    step: Step,
    level: usize,
) -> Result<Progress, SearchEnd>
    requires few { nodes ≤ MAX_NODES }
    requires level { length (links_of chain) ≡ level }
    requires next { chains.push_fault (links_of chain) (Marker step) ≡ None }
    ensures ok { IfOk result (λ p. spec.with_step level (links_of chain) nodes (Ok step) ≡ state_of p) }
    ensures come { IfOk result (HasComeTo (level + 1)) }
    ensures err { IfErr result (λ e. (e ≡ ends.OutOfMemory) ⊎ (spec.with_step level (links_of chain) nodes (Ok step) ≡ over (Err e))) }
{
    let Some(nodes) = more_nodes(nodes, step.view().raw().refuted.as_slice()) else {
        return Err(SearchEnd::TooManyNodes { level });
    };
    match pushed(alloc, chain, step) {
        Ok(longer) => met(alloc, longer, nodes),
        Err(_) => Err(SearchEnd::OutOfMemory),
    }
}

/// The search one level on.
fn advance(
    alloc: Global,
    set: SetRef<'_>,
    axes: &[Axis],
    side: Side,
    radius: u8,
    budget: u64,
    level: usize,
    chain: Option<Chain>,
    nodes: usize,
) -> Result<Progress, SearchEnd>
    requires some { 0 < length axes.now }
    requires radius { radius ≤ 4 }
    requires few { nodes ≤ MAX_NODES }
    requires level { length (links_of chain) ≡ level }
    requires below { level < MAX_LEVELS }
    ensures ok { IfOk result (λ p. next (asked axes.now side radius budget) set.entry.list.now level (going (links_of chain) nodes) ≡ state_of p) }
    ensures come { IfOk result (HasComeTo (level + 1)) }
    ensures err { IfErr result (MayEndNext (asked axes.now side radius budget) set.entry.list.now level (links_of chain) nodes) }
    ensures at_zero { EndsAtZero (last_set set.entry.list.now (links_of chain)).tiles radius budget level result }
{
    match level_step(
        alloc,
        current(set, &chain),
        axes,
        side,
        radius,
        budget,
        level,
    ) {
        Ok(step) => with_step(alloc, chain, nodes, step, level),
        Err(end) => Err(end),
    }
}

/// The same as `search`, said in three clauses.
fn search_levels(
    alloc: Global,
    set: SetRef<'_>,
    axes: &[Axis],
    side: Side,
    radius: u8,
    levels: usize,
    budget: u64,
) -> Result<Accepted, SearchEnd>
    requires some { 0 < length axes.now }
    requires radius { radius ≤ 4 }
    requires levels { (0 < levels) × (levels ≤ MAX_LEVELS) }
    ensures found { IfOk result (λ chain. spec.found (asked axes.now side radius budget) set.entry.list.now levels ≡ Ok chain) }
    ensures ended { IfErr result (spec.MayEnd (asked axes.now side radius budget) set.entry.list.now levels) }
    ensures at_zero { EndsAtZero set.entry.list.now.tiles radius budget 0 result }
{
    let mut chain = None;
    let mut nodes = 0usize;
    for level in 0..levels {
        match advance(alloc, set, axes, side, radius, budget, level, chain, nodes) {
            Err(end) => return Err(end),
            Ok(Progress::Found(accepted)) => return Ok(accepted),
            Ok(
                Progress::Going {
                    chain: longer,
                    nodes: more,
                },
            ) => {
                chain = Some(longer);
                nodes = more;
            }
        }
    }
    Err(SearchEnd::Levels)
}

/// The chain that is found from a set, each step taking the first kept class of markers along the axes in turn:
/// at the first level whose set is equivalent to an earlier one, the least such level, it is closed with the least
/// renaming and the least expansion. Else the reason why none is found, which is the first. A search of a window
/// may end as spent only where its trials are more than the budget, and always does at budget 0.
pub fn search(
    alloc: Global,
    set: SetRef<'_>,
    axes: &[Axis],
    side: Side,
    radius: u8,
    levels: usize,
    budget: u64,
) -> Result<Accepted, SearchEnd>
    requires axes { (0 < length axes.now) × (length axes.now ≤ MAX_AXES) }
    requires radius { radius ≤ 4 }
    requires levels { (0 < levels) × (levels ≤ MAX_LEVELS) }
    ensures { MayAnswerSearch (asked axes.now side radius budget) set.entry.list.now levels result }
{
    search_levels(alloc, set, axes, side, radius, levels, budget)
}
