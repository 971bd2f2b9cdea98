//! Regions moved back along an axis, and what is cut by them after two turns.
ghost use Rattle.std.specs.Prelude.{◌≡◌, ◌++◌, map, None, Some, IfOk, OnOk};
ghost use Rattle.std.specs.List.{list_all, flat_map};
ghost use Rattle.wt_grid.specs.Order.{first_in};
ghost use Rattle.wt_plane.specs.HalfPlanes.{reduced_half};
ghost use Rattle.wt_induce.specs.Faults.{is_small_half};
ghost use Rattle.wt_induce.specs.Induced.{some_clash, kept_drafts};
ghost use Rattle.wt_induce.specs.Zones.{moved_along};
ghost use Rattle.wt_induce.specs.Backs.{moved_within, back_of, back_drafts, back_fault, region_drafts, region_pairs_fault};
ghost use Rattle.wt_grid.specs.Answers.{FailsByOr, GivesWhere};

use crate::drafts::{Draft, joined, keep};
use crate::zones::zero;
use crate::{InduceFault, meeting};
use std::alloc::{AllocError, Global};
use wt_golden::{Golden, TooLarge};
use wt_grid::{Axis, Image};
use wt_plane::HalfPlane;
use wt_seq::Seq;
use wt_torus::Labelled;

/// A region moved back.
#[derive(Drop)]
pub(crate) struct Back {
    /// Its label.
    pub label: u16,
    /// Its half-planes moved back, if all of them are within the limit.
    pub planes: Option<Seq<HalfPlane>>,
}

/// The half-plane that holds where this one holds after a move along the axis, or that a number is out of limit. Takes no
/// memory.
pub fn moved(axis: Axis, step: Golden, h: &HalfPlane) -> Result<HalfPlane, TooLarge>
    ensures { GivesWhere result (reduced_half (moved_along axis step h.now)) is_small_half }
{
    match axis {
        Axis::One => h.moved(step, zero()),
        Axis::Two => h.moved(zero(), step),
    }
}

fn moved_planes(
    alloc: Global,
    axis: Axis,
    step: Golden,
    planes: &[HalfPlane],
) -> Result<Option<Seq<HalfPlane>>, AllocError>
    ensures { IfOk result (λ m. m ≡ moved_within axis step planes.now) }
{
    let mut all = Vec::with_capacity(alloc, planes.len())?;
    for h in planes {
        match moved(axis, step, h) {
            Ok(g) => all.push(g)?,
            Err(_) => return Ok(None),
        }
    }
    Ok(Some(Seq::new(all)))
}

fn moved_region(alloc: Global, axis: Axis, step: Golden, q: &Labelled) -> Result<Back, AllocError>
    ensures { IfOk result (λ b. b ≡ back_of axis step q.now) }
{
    let planes = moved_planes(alloc, axis, step, q.region.planes.as_slice())?;
    Ok(Back {
        label: q.label,
        planes,
    })
}

/// All regions moved back by the move.
pub(crate) fn moved_regions(
    alloc: Global,
    axis: Axis,
    step: Golden,
    regions: &[Labelled],
) -> Result<Vec<Back>, AllocError>
    ensures { IfOk result (λ all. all.items ≡ map (back_of axis step) regions.now) }
{
    let mut all = Vec::with_capacity(alloc, regions.len())?;
    for q in regions {
        all.push(moved_region(alloc, axis, step, q)?)?;
    }
    Ok(all)
}

// Adds what is kept of half-planes in front and a region moved back, where those in front may be known to clash.
fn keep_pair(
    alloc: Global,
    front: &[HalfPlane],
    empty: bool,
    label: u16,
    q: &Back,
    kept: &mut Vec<Draft>,
) -> Result<(), InduceFault>
    requires { empty ≡ some_clash front.now }
    ensures ok { OnOk result (kept.new.items ≡ kept.old.items ++ kept_drafts (back_drafts front.now label q.now)) }
    ensures fault { FailsByOr result (back_fault front.now label q.now) InduceFault.OutOfMemory }
{
    let Some(planes) = &q.planes else {
        return Err(InduceFault::TooLarge);
    };
    if empty {
        return Ok(());
    }
    let all = joined(alloc, front, planes.as_slice())?;
    keep(
        Draft {
            image: Image::Two(label, q.label),
            planes: Seq::new(all),
        },
        kept,
    )
}

// Adds what is kept of a region with all regions moved back.
fn keep_pairs(
    alloc: Global,
    front: &[HalfPlane],
    label: u16,
    backs: &[Back],
    kept: &mut Vec<Draft>,
) -> Result<(), InduceFault>
    ensures ok { OnOk result (kept.new.items ≡ kept.old.items ++ kept_drafts (flat_map (back_drafts front.now label) backs.now)) }
    ensures fault { FailsByOr result (first_in (back_fault front.now label) backs.now) InduceFault.OutOfMemory }
{
    let empty = meeting::some_clash(front);
    for q in backs {
        keep_pair(alloc, front, empty, label, q, kept)?;
    }
    Ok(())
}

fn keep_region(
    alloc: Global,
    zone: &[HalfPlane],
    backs: &[Back],
    p: &Labelled,
    kept: &mut Vec<Draft>,
) -> Result<(), InduceFault>
    ensures ok { OnOk result (kept.new.items ≡ kept.old.items ++ kept_drafts (region_drafts zone.now backs.now p.now)) }
    ensures fault { FailsByOr result (region_pairs_fault zone.now backs.now p.now) InduceFault.OutOfMemory }
{
    let front = joined(alloc, p.region.planes.as_slice(), zone)?;
    keep_pairs(alloc, &front, p.label, backs, kept)
}

/// Adds what is kept of all pairs of regions after two turns.
pub(crate) fn keep_doubles(
    alloc: Global,
    zone: &[HalfPlane],
    backs: &[Back],
    regions: &[Labelled],
    kept: &mut Vec<Draft>,
) -> Result<(), InduceFault>
    ensures ok { OnOk result (kept.new.items ≡ kept.old.items ++ kept_drafts (flat_map (region_drafts zone.now backs.now) regions.now)) }
    ensures fault { FailsByOr result (first_in (region_pairs_fault zone.now backs.now) regions.now) InduceFault.OutOfMemory }
{
    for p in regions {
        keep_region(alloc, zone, backs, p, kept)?;
    }
    Ok(())
}
