//! Pairs that are asked for a window of one radius, and the trees of those that have none.
ghost use Rattle.std.specs.Prelude.{◌≡◌, ◌⊎◌, ◌≤◌, ◌<◌, ◌++◌, ◌∷◌, [], true, false, All, IfOk, IfErr, OnOk, Ok, Err, filter};
ghost use Rattle.wt_refute.specs.Entries.{ascends};
ghost use Rattle.wt_search.specs.Light.{entry_of, entries_of};
ghost use Rattle.wt_search.specs.Light as light;
ghost use Rattle.wt_search.specs.declared.light_end.LightenEnd.TheVariants as ends;
ghost use Rattle.wt_search.specs.Lightened.{after_pair, after_pairs, after_window, MayBeSpent, IsJoined, MayStopAtPair, MayStopAmong};
ghost use Rattle.wt_search.specs.Lightened as spec;

use crate::finding::nodes_after;
use crate::{LightenEnd, MAX_NODES};
use std::alloc::Global;
use wt_mask::Sides;
use wt_refute::{BuildEnd, Refuted, build_tree_in};
use wt_tile::{Axis, SetRef};
use wt_window::{WindowEnd, surround};

/// What pairs are asked for: the number of the step, the radius and axis of their windows, and the budget of each
/// window and each tree.
#[derive(Clone, Copy)]
pub struct Round {
    pub step: usize,
    pub radius: u8,
    pub axis: Axis,
    pub budget: u64,
}

/// The pair is spent.
fn spent(round: Round, pair: (u16, u16)) -> LightenEnd
    ensures { result ≡ spec.spent round pair }
{
    LightenEnd::Spent {
        step: round.step,
        radius: round.radius,
        axis: round.axis,
        a: pair.0,
        b: pair.1,
    }
}

/// Whether a pair has a window.
fn has_window(
    alloc: Global,
    set: SetRef<'_>,
    round: Round,
    pair: (u16, u16),
) -> Result<bool, LightenEnd>
    requires radius { round.radius ≤ 4 }
    requires pair { IsJoined set.list.now.tiles round.axis pair }
    ensures value { IfOk result (λ found. (found ≡ light.has_window set.entry.list.now.tiles round.axis round.radius pair) × (0 < round.budget)) }
    ensures end { IfErr result (λ e. (e ≡ ends.OutOfMemory) ⊎ MayBeSpent set.entry.list.now.tiles round pair e) }
{
    match surround(
        alloc,
        set,
        round.axis,
        pair.0,
        pair.1,
        round.radius,
        round.budget,
    ) {
        Ok(Some(_)) => Ok(true),
        Ok(None) => Ok(false),
        Err(WindowEnd::Spent) => Err(spent(round, pair)),
        Err(WindowEnd::OutOfMemory) => Err(LightenEnd::OutOfMemory),
    }
}

/// The entry of a pair that has no window, and the nodes so far with those of its tree.
#[tactic(auto, using(wt_marker::proofs::Keeping::kept_tree))]
fn refute(
    alloc: Global,
    sides: &Sides<'_>,
    known: &[Refuted],
    round: Round,
    pair: (u16, u16),
    nodes: usize,
) -> Result<(Refuted, usize), LightenEnd>
    requires radius { round.radius ≤ 4 }
    requires pair { IsJoined sides.now.tiles.now round.axis pair }
    requires in_order { ascends known.now ≡ true }
    requires few { nodes ≤ MAX_NODES }
    ensures entry { IfOk result (λ r. r.0 ≡ entry_of sides.now.tiles.now known.now round.radius round.axis pair) }
    ensures nodes { IfOk result (λ r. (after_window sides.now.tiles.now known.now round pair nodes false ≡ Ok r.1) × (r.1 ≤ MAX_NODES)) }
    ensures end { IfErr result (λ e. (e ≡ ends.OutOfMemory) ⊎ (after_window sides.now.tiles.now known.now round pair nodes false ≡ Err e)) }
{
    let tree = match build_tree_in(
        alloc,
        sides,
        round.axis,
        pair.0,
        pair.1,
        round.radius,
        known,
        round.budget,
    ) {
        Ok(tree) => tree,
        Err(BuildEnd::Spent) => return Err(spent(round, pair)),
        Err(BuildEnd::OutOfMemory) => return Err(LightenEnd::OutOfMemory),
    };
    let Some(nodes) = nodes_after(nodes, &tree) else {
        return Err(LightenEnd::TooManyNodes { step: round.step });
    };
    let entry = Refuted {
        axis: round.axis,
        a: pair.0,
        b: pair.1,
        radius: round.radius,
        tree,
    };
    Ok((entry, nodes))
}

/// Asks a pair: keeps it where it has a window, and else its entry. The nodes so far with those of its tree.
fn ask(
    alloc: Global,
    set: SetRef<'_>,
    sides: &Sides<'_>,
    known: &[Refuted],
    round: Round,
    pair: (u16, u16),
    nodes: usize,
    entries: &mut Vec<Refuted>,
    left: &mut Vec<(u16, u16)>,
) -> Result<usize, LightenEnd>
    requires radius { round.radius ≤ 4 }
    requires same { sides.now.tiles.now ≡ set.list.now.tiles }
    requires pair { IsJoined set.list.now.tiles round.axis pair }
    requires in_order { ascends known.now ≡ true }
    requires few { nodes ≤ MAX_NODES }
    ensures nodes { IfOk result (λ n. (after_pair set.entry.list.now.tiles known.now round pair nodes ≡ Ok n) × (n ≤ MAX_NODES)) }
    ensures entries { OnOk result (entries.new.items ≡ entries.old.items ++ entries_of set.entry.list.now.tiles known.now round.radius round.axis (pair ∷ [])) }
    ensures left { OnOk result (left.new.items ≡ left.old.items ++ filter (light.has_window set.entry.list.now.tiles round.axis round.radius) (pair ∷ [])) }
    ensures end { IfErr result (MayStopAtPair set.entry.list.now.tiles known.now round pair nodes) }
{
    match has_window(alloc, set, round, pair) {
        Err(end) => Err(end),
        Ok(true) => {
            let Ok(()) = left.push(pair) else {
                return Err(LightenEnd::OutOfMemory);
            };
            Ok(nodes)
        }
        Ok(false) => {
            let (entry, nodes) = match refute(alloc, sides, known, round, pair, nodes) {
                Ok(refuted) => refuted,
                Err(end) => return Err(end),
            };
            let Ok(()) = entries.push(entry) else {
                return Err(LightenEnd::OutOfMemory);
            };
            Ok(nodes)
        }
    }
}

/// Asks pairs in turn, and appends the entries of those that have no window. The pairs that have one, and the nodes so
/// far with those of all trees.
pub fn ask_all(
    alloc: Global,
    set: SetRef<'_>,
    sides: &Sides<'_>,
    known: &[Refuted],
    round: Round,
    pairs: &[(u16, u16)],
    nodes: usize,
    entries: &mut Vec<Refuted>,
) -> Result<(Vec<(u16, u16)>, usize), LightenEnd>
    requires radius { round.radius ≤ 4 }
    requires same { sides.now.tiles.now ≡ set.list.now.tiles }
    requires pairs { All (IsJoined set.list.now.tiles round.axis) pairs.now }
    requires in_order { ascends known.now ≡ true }
    requires few { nodes ≤ MAX_NODES }
    ensures nodes { IfOk result (λ r. (after_pairs set.entry.list.now.tiles known.now round pairs.now nodes ≡ Ok r.1) × (r.1 ≤ MAX_NODES)) }
    ensures entries { OnOk result (entries.new.items ≡ entries.old.items ++ entries_of set.entry.list.now.tiles known.now round.radius round.axis pairs.now) }
    ensures left { IfOk result (λ r. r.0.items ≡ filter (light.has_window set.entry.list.now.tiles round.axis round.radius) pairs.now) }
    ensures end { IfErr result (MayStopAmong set.entry.list.now.tiles known.now round pairs.now nodes) }
{
    let mut left = Vec::new(alloc);
    let mut sum = nodes;
    for pair in pairs {
        match ask(
            alloc, set, sides, known, round, *pair, sum, entries, &mut left,
        ) {
            Ok(more) => sum = more,
            Err(end) => return Err(end),
        }
    }
    Ok((left, sum))
}
