// Restrict steps: the tests.
ghost use Rattle.std.specs.Prelude.{◌≡◌, ◌≤◌, length};
ghost use Rattle.std.specs.List.{list_any};
ghost use Rattle.wt_grid.specs.Order.{in_order, leads};
ghost use Rattle.wt_step.specs.Restrict.{lost_below, losses_follow, loses, IsSorted};
ghost use Rattle.wt_step.specs.Restrict as spec;

use crate::order::numbers_ascend;
use crate::rules::agree;
use crate::{Lost, RawRestrict, StepFault};
use wt_grid::{MAX_TILES, is_among};
use wt_refute::check_tile_tree;
use wt_tile::{Axis, SetRef, is_match, set_fault};

fn kept_fit(raw: &RawRestrict) -> bool
    ensures { result ≡ spec.kept_fit raw.now }
{
    let kept = raw.kept.as_slice();
    numbers_ascend(raw.fine.tiles.as_slice().len(), kept)
        && kept.len() == raw.coarse.tiles.as_slice().len()
}

fn lost_leads(lost: &Lost, after: &[Lost]) -> bool
    ensures { result ≡ leads losses_follow lost.now after.now }
{
    match after {
        [] => true,
        [next, ..] => lost.tile < next.tile,
    }
}

fn lost_ascend(below: usize, losses: &[Lost]) -> bool
    ensures { result ≡ in_order (lost_below below) losses_follow losses.now }
{
    let mut left = losses;
    while let [lost, after @ ..] = left {
        if usize::from(lost.tile) >= below || !lost_leads(lost, after) {
            return false;
        }
        left = after;
    }
    true
}

fn is_lost(tile: u16, losses: &[Lost]) -> bool
    ensures { result ≡ list_any (loses tile) losses.now }
{
    for lost in losses {
        if tile == lost.tile {
            return true;
        }
    }
    false
}

fn sorted_fault_at(raw: &RawRestrict, tile: u16) -> Option<StepFault>
    ensures { result ≡ spec.sorted_fault_at raw.now tile }
{
    let kept = is_among(tile, raw.kept.as_slice());
    if agree(is_lost(tile, raw.lost.as_slice()), !kept) {
        None
    } else {
        Some(StepFault::LostList)
    }
}

#[tactic(auto, using(wt_grid::proofs::First::first_more))]
fn sorted_fault(raw: &RawRestrict) -> Option<StepFault>
    requires { length raw.now.fine.tiles ≤ MAX_TILES }
    ensures { result ≡ spec.sorted_fault raw.now }
{
    for tile in 0..raw.fine.tiles.as_slice().len() as u16 {
        if let Some(fault) = sorted_fault_at(raw, tile) {
            return Some(fault);
        }
    }
    None
}

/// The first fault of the lists.
#[tactic(auto, unfolding(crate::specs::Restrict::sorting_fault), using(wt_tile::proofs::Sizes::few_tiles))]
fn sorting_fault(raw: &RawRestrict) -> Option<StepFault>
    ensures { result ≡ spec.sorting_fault raw.now }
{
    if raw.radius > 4 {
        return Some(StepFault::Radius);
    }
    if let Some(fault) = set_fault(&raw.fine) {
        return Some(StepFault::Fine(fault));
    }
    if let Some(fault) = set_fault(&raw.coarse) {
        return Some(StepFault::Coarse(fault));
    }
    if !kept_fit(raw) {
        return Some(StepFault::Kept);
    }
    if !lost_ascend(raw.fine.tiles.as_slice().len(), raw.lost.as_slice()) {
        return Some(StepFault::LostList);
    }
    sorted_fault(raw)
}

fn lost_fault_at(raw: &RawRestrict, lost: &Lost) -> Option<StepFault>
    requires { IsSorted raw.now }
    ensures { result ≡ spec.lost_fault_at raw.now lost.now }
{
    let set = SetRef::of(&raw.fine);
    match check_tile_tree(set, lost.tile, raw.radius, &lost.tree) {
        Ok(()) => None,
        Err(fault) => Some(StepFault::LostNode {
            tile: lost.tile,
            node: fault.node,
        }),
    }
}

/// The first lost tile whose tree doesn't refute its window.
fn lost_fault(raw: &RawRestrict) -> Option<StepFault>
    requires { IsSorted raw.now }
    ensures { result ≡ spec.lost_fault raw.now }
{
    for lost in raw.lost.as_slice() {
        if let Some(fault) = lost_fault_at(raw, lost) {
            return Some(fault);
        }
    }
    None
}

/// The fine tile that coarse tile i stands for, or 0 past the last.
pub fn kept_at(raw: &RawRestrict, i: u16) -> u16
    ensures { result ≡ spec.kept_at raw.now i }
{
    let kept = raw.kept.as_slice();
    if usize::from(i) < kept.len() {
        kept[usize::from(i)]
    } else {
        0
    }
}

fn kept_join_at(raw: &RawRestrict, axis: Axis, i: u16, j: u16) -> Option<StepFault>
    ensures { result ≡ spec.kept_join_at raw.now axis i j }
{
    let joined = is_match(raw.coarse.tiles.as_slice(), axis, i, j);
    let wanted = is_match(
        raw.fine.tiles.as_slice(),
        axis,
        kept_at(raw, i),
        kept_at(raw, j),
    );
    if agree(joined, wanted) {
        None
    } else {
        Some(StepFault::Join { axis, a: i, b: j })
    }
}

fn count_coarse(raw: &RawRestrict) -> u16
    requires { IsSorted raw.now }
    ensures value { result ≡ length raw.now.coarse.tiles }
    ensures small { result ≤ MAX_TILES }
{
    SetRef::of(&raw.coarse).tiles().len() as u16
}

#[tactic(auto, using(wt_grid::proofs::First::first_more))]
fn kept_join_row(raw: &RawRestrict, axis: Axis, i: u16) -> Option<StepFault>
    requires { IsSorted raw.now }
    ensures { result ≡ spec.kept_join_row raw.now axis i }
{
    for j in 0..count_coarse(raw) {
        if let Some(fault) = kept_join_at(raw, axis, i, j) {
            return Some(fault);
        }
    }
    None
}

/// The first coarse pair that matches otherwise than the fine tiles it stands for.
#[tactic(auto, using(wt_grid::proofs::First::first_more))]
fn kept_join_fault(raw: &RawRestrict, axis: Axis) -> Option<StepFault>
    requires { IsSorted raw.now }
    ensures { result ≡ spec.kept_join_fault raw.now axis }
{
    for i in 0..count_coarse(raw) {
        if let Some(fault) = kept_join_row(raw, axis, i) {
            return Some(fault);
        }
    }
    None
}

fn use_fault(raw: &RawRestrict) -> Option<StepFault>
    requires { IsSorted raw.now }
    ensures { result ≡ spec.use_fault raw.now }
{
    if let Some(fault) = lost_fault(raw) {
        return Some(fault);
    }
    if let Some(fault) = kept_join_fault(raw, Axis::One) {
        return Some(fault);
    }
    kept_join_fault(raw, Axis::Two)
}

/// The first failing condition of a restrict step.
#[tactic(auto, unfolding(crate::specs::Restrict::restrict_fault))]
pub fn restrict_fault(raw: &RawRestrict) -> Option<StepFault>
    ensures { result ≡ spec.restrict_fault raw.now }
{
    match sorting_fault(raw) {
        Some(fault) => Some(fault),
        None => use_fault(raw),
    }
}
