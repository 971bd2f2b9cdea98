//! The refutations of a light step, radius by radius.
ghost use Rattle.std.specs.Prelude.{◌≡◌, ◌≤◌, ◌<◌, ◌+◌, None, IfOk, IfErr, Ok};
ghost use Rattle.wt_step.specs.Faults.{step_fault};
ghost use Rattle.wt_search.specs.Light as light;
ghost use Rattle.wt_search.specs.Lightened.{MayStop, after_radius, after_radii, MayBeSpentAt, MayBeSpentTo};
ghost use Rattle.wt_search.specs.States.{IsLoweredTo};

use crate::lowering::{Round, ask_all};
use crate::refuted::list_refuted;
use crate::{LightenEnd, MAX_NODES};
use std::alloc::{AllocError, Global};
use wt_mask::Sides;
use wt_refute::Refuted;
use wt_step::RawStep;
use wt_tile::{Axis, SetRef};

/// How far a step is lightened: the entries of all radii that were asked, the refuted pairs of axis 1 and of axis 2
/// that have a window at each of these, and the nodes of all trees so far.
#[derive(Drop)]
pub struct Lowered {
    pub entries: Vec<Refuted>,
    pub one: Vec<(u16, u16)>,
    pub two: Vec<(u16, u16)>,
    pub nodes: usize,
}

/// Before the first radius.
fn unasked(alloc: Global, raw: &RawStep, nodes: usize) -> Result<Lowered, AllocError>
    requires good { step_fault raw.now ≡ None }
    requires few { nodes ≤ MAX_NODES }
    ensures come { IfOk result (IsLoweredTo raw.now 0) }
    ensures nodes { IfOk result (λ l. l.nodes ≡ nodes) }
{
    let one = list_refuted(alloc, raw, Axis::One)?;
    let two = list_refuted(alloc, raw, Axis::Two)?;
    Ok(Lowered {
        entries: Vec::new(alloc),
        one,
        two,
        nodes,
    })
}

/// One radius more.
fn lower(
    alloc: Global,
    raw: &RawStep,
    set: SetRef<'_>,
    sides: &Sides<'_>,
    step: usize,
    below: u8,
    budget: u64,
    lowered: Lowered,
) -> Result<Lowered, LightenEnd>
    requires good { step_fault raw.now ≡ None }
    requires set { set.list.now ≡ raw.now.fine }
    requires same { sides.now.tiles.now ≡ raw.now.fine.tiles }
    requires radius { raw.now.radius ≤ 4 }
    requires below { below < raw.now.radius }
    requires come { IsLoweredTo raw.now below lowered }
    ensures come { IfOk result (IsLoweredTo raw.now (below + 1)) }
    ensures nodes { IfOk result (λ l. after_radius step raw.now budget below lowered.nodes ≡ Ok l.nodes) }
    ensures end { IfErr result (λ e. MayStop (MayBeSpentAt step raw.now budget below lowered.nodes e) (after_radius step raw.now budget below lowered.nodes) e) }
{
    let Lowered {
        mut entries,
        one: asked1,
        two: asked2,
        nodes: before,
    } = lowered;
    let mut added = Vec::new(alloc);
    let radius = below + 1;
    let first = Round {
        step,
        radius,
        axis: Axis::One,
        budget,
    };
    let (one, between) = match ask_all(
        alloc, set, sides, &entries, first, &asked1, before, &mut added,
    ) {
        Ok(asked) => asked,
        Err(end) => return Err(end),
    };
    let second = Round {
        step,
        radius,
        axis: Axis::Two,
        budget,
    };
    let (two, nodes) = match ask_all(
        alloc, set, sides, &entries, second, &asked2, between, &mut added,
    ) {
        Ok(asked) => asked,
        Err(end) => return Err(end),
    };
    entries.append(&mut added)?;
    Ok(Lowered {
        entries,
        one,
        two,
        nodes,
    })
}

/// The refutations of the light step of a good step, and the nodes so far with those of all its trees.
pub fn light_entries(
    alloc: Global,
    raw: &RawStep,
    step: usize,
    budget: u64,
    nodes: usize,
) -> Result<(Vec<Refuted>, usize), LightenEnd>
    requires good { step_fault raw.now ≡ None }
    requires few { nodes ≤ MAX_NODES }
    ensures entries { IfOk result (λ r. r.0.items ≡ light.light_entries raw.now raw.now.radius) }
    ensures nodes { IfOk result (λ r. (after_radii step raw.now budget raw.now.radius nodes ≡ Ok r.1) × (r.1 ≤ MAX_NODES)) }
    ensures end { IfErr result (λ e. MayStop (MayBeSpentTo step raw.now budget raw.now.radius nodes e) (after_radii step raw.now budget raw.now.radius nodes) e) }
{
    let set = SetRef::of(&raw.fine);
    let sides = Sides::new(set.tiles());
    let mut lowered = unasked(alloc, raw, nodes)?;
    for below in 0..raw.radius {
        match lower(alloc, raw, set, &sides, step, below, budget, lowered) {
            Ok(more) => lowered = more,
            Err(end) => return Err(end),
        }
    }
    Ok((lowered.entries, lowered.nodes))
}
