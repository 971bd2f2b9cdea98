//! Induced regions in the making: cut out of a region after one turn, dropped or kept.
ghost use Rattle.std.specs.Prelude.{◌≡◌, ◌++◌, ◌∷◌, [], IfOk, OnOk, MatchResult};
ghost use Rattle.wt_grid.specs.Order.{first_in};
ghost use Rattle.wt_induce.specs.Faults.{planes_fault};
ghost use Rattle.wt_induce.specs.Induced.{singles, kept_drafts};
ghost use Rattle.wt_induce.specs.Induced as induced;
ghost use Rattle.wt_grid.specs.Answers.{FailsByOr};

use crate::InduceFault;
use crate::meeting::some_clash;
use std::alloc::{AllocError, Global};
use wt_grid::Image;
use wt_plane::{HalfPlane, Region, reduce};
use wt_seq::Seq;
use wt_torus::{Labelled, MAX_PLANES};

/// An induced region in the making.
#[derive(Drop)]
pub(crate) struct Draft {
    /// What its label will stand for.
    pub image: Image,
    /// Its half-planes.
    pub planes: Seq<HalfPlane>,
}

/// Adds these half-planes behind.
pub(crate) fn append(all: &mut Vec<HalfPlane>, more: &[HalfPlane]) -> Result<(), AllocError>
    ensures { OnOk result (all.new.items ≡ all.old.items ++ more.now) }
{
    for h in more {
        all.push(*h)?;
    }
    Ok(())
}

/// The half-planes of both lists.
pub(crate) fn joined(
    alloc: Global,
    first: &[HalfPlane],
    second: &[HalfPlane],
) -> Result<Vec<HalfPlane>, AllocError>
    ensures { IfOk result (λ all. all.items ≡ first.now ++ second.now) }
{
    let mut all = Vec::new(alloc);
    append(&mut all, first)?;
    append(&mut all, second)?;
    Ok(all)
}

fn push(draft: Draft, kept: &mut Vec<Draft>) -> Result<(), InduceFault>
    ensures ok { OnOk result (kept.new.items ≡ kept.old.items ++ (draft ∷ [])) }
    ensures fault { MatchResult result (λ _. Unit {0}) (λ e. e ≡ InduceFault.OutOfMemory) }
{
    match kept.push(draft) {
        Ok(()) => Ok(()),
        Err(_) => Err(InduceFault::OutOfMemory),
    }
}

/// Adds a draft to those that are kept, reduced, unless three of its half-planes clash.
pub(crate) fn keep(draft: Draft, kept: &mut Vec<Draft>) -> Result<(), InduceFault>
    ensures ok { OnOk result (kept.new.items ≡ kept.old.items ++ kept_drafts (draft ∷ [])) }
    ensures fault { FailsByOr result (planes_fault draft) InduceFault.OutOfMemory }
{
    let Draft { image, planes } = draft;
    if some_clash(planes.as_slice()) {
        return Ok(());
    }
    let region = reduce(Region { planes });
    if region.planes.as_slice().len() > MAX_PLANES {
        return Err(InduceFault::TooManyPlanes);
    }
    push(
        Draft {
            image,
            planes: region.planes,
        },
        kept,
    )
}

// The draft of a region after one turn.
fn single(alloc: Global, zone: &[HalfPlane], p: &Labelled) -> Result<Draft, AllocError>
    ensures { IfOk result (λ c. c ≡ induced.single zone.now p.now) }
{
    let planes = joined(alloc, p.region.planes.as_slice(), zone)?;
    Ok(Draft {
        image: Image::One(p.label),
        planes: Seq::new(planes),
    })
}

fn keep_single(
    alloc: Global,
    zone: &[HalfPlane],
    p: &Labelled,
    kept: &mut Vec<Draft>,
) -> Result<(), InduceFault>
    ensures ok { OnOk result (kept.new.items ≡ kept.old.items ++ kept_drafts (induced.single zone.now p.now ∷ [])) }
    ensures fault { FailsByOr result (planes_fault (induced.single zone.now p.now)) InduceFault.OutOfMemory }
{
    let draft = single(alloc, zone, p)?;
    keep(draft, kept)
}

/// Adds what is kept of all regions after one turn.
pub(crate) fn keep_singles(
    alloc: Global,
    zone: &[HalfPlane],
    regions: &[Labelled],
    kept: &mut Vec<Draft>,
) -> Result<(), InduceFault>
    ensures ok { OnOk result (kept.new.items ≡ kept.old.items ++ kept_drafts (singles zone.now regions.now)) }
    ensures fault { FailsByOr result (first_in planes_fault (singles zone.now regions.now)) InduceFault.OutOfMemory }
{
    for p in regions {
        keep_single(alloc, zone, p, kept)?;
    }
    Ok(())
}
