// Copies of steps.
ghost use Rattle.std.specs.Prelude.{◌≡◌, IfOk};

use crate::{Lost, RawLink, RawRestrict, RawStep};
use std::alloc::{AllocError, Global};
use wt_refute::{Refuted, copy_tree};
use wt_seq::Seq;

/// An equal step, good or not. Fails only where memory runs out.
pub fn copy_link(alloc: Global, raw: &RawLink) -> Result<RawLink, AllocError>
    ensures { IfOk result (λ copied. copied ≡ raw.now) }
{
    match raw {
        RawLink::Marker(step) => {
            let copied = copy_step(alloc, step)?;
            Ok(RawLink::Marker(copied))
        }
        RawLink::Restrict(step) => {
            let copied = copy_restrict(alloc, step)?;
            Ok(RawLink::Restrict(copied))
        }
    }
}

fn copy_step(alloc: Global, raw: &RawStep) -> Result<RawStep, AllocError>
    ensures { IfOk result (λ copied. copied ≡ raw.now) }
{
    let fine = raw.fine.copy(alloc)?;
    let coarse = raw.coarse.copy(alloc)?;
    let markers = raw.markers.copy(alloc)?;
    let allowed1 = raw.allowed1.copy(alloc)?;
    let allowed2 = raw.allowed2.copy(alloc)?;
    let refuted = copy_entries(alloc, raw.refuted.as_slice())?;
    let images = raw.images.copy(alloc)?;
    Ok(RawStep {
        axis: raw.axis,
        side: raw.side,
        radius: raw.radius,
        fine,
        coarse,
        markers,
        allowed1,
        allowed2,
        refuted,
        images,
    })
}

fn copy_restrict(alloc: Global, raw: &RawRestrict) -> Result<RawRestrict, AllocError>
    ensures { IfOk result (λ copied. copied ≡ raw.now) }
{
    let fine = raw.fine.copy(alloc)?;
    let coarse = raw.coarse.copy(alloc)?;
    let kept = raw.kept.copy(alloc)?;
    let lost = copy_losses(alloc, raw.lost.as_slice())?;
    Ok(RawRestrict {
        radius: raw.radius,
        fine,
        coarse,
        kept,
        lost,
    })
}

fn copy_entries(alloc: Global, entries: &[Refuted]) -> Result<Seq<Refuted>, AllocError>
    ensures { IfOk result (λ copied. copied ≡ entries.now) }
{
    let mut copies = Vec::new(alloc);
    for entry in entries {
        let tree = copy_tree(alloc, &entry.tree)?;
        copies.push(Refuted {
            axis: entry.axis,
            a: entry.a,
            b: entry.b,
            radius: entry.radius,
            tree,
        })?;
    }
    Ok(Seq::new(copies))
}

fn copy_losses(alloc: Global, losses: &[Lost]) -> Result<Seq<Lost>, AllocError>
    ensures { IfOk result (λ copied. copied ≡ losses.now) }
{
    let mut copies = Vec::new(alloc);
    for lost in losses {
        let tree = copy_tree(alloc, &lost.tree)?;
        copies.push(Lost {
            tile: lost.tile,
            tree,
        })?;
    }
    Ok(Seq::new(copies))
}
