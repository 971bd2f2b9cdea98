//! The pairs that a step refutes, listed.
ghost use Rattle.std.specs.Prelude.{◌≡◌, ◌≤◌, ◌++◌, ◌∷◌, [], true, length, IfOk, OnOk};
ghost use Rattle.wt_refute.specs.Entries.{ascends};
ghost use Rattle.wt_marker.specs.Gather.{only_if, row_of};
ghost use Rattle.wt_search.specs.Light.{refuted_of};
ghost use Rattle.wt_search.specs.Light as spec;

use std::alloc::{AllocError, Global};
use wt_refute::has_entry;
use wt_step::RawStep;
use wt_tile::Axis;

/// Whether a step refutes a pair.
#[tactic(auto, using(wt_marker::proofs::Gather::any_more))]
fn has_refutation(raw: &RawStep, axis: Axis, a: u16, b: u16) -> bool
    requires radius { raw.now.radius ≤ 4 }
    requires in_order { ascends raw.now.refuted ≡ true }
    ensures { result ≡ spec.has_refutation raw.now axis a b }
{
    for radius in 0..raw.radius + 1 {
        if has_entry(radius, axis, a, b, raw.refuted.as_slice()) {
            return true;
        }
    }
    false
}

fn push_if(out: &mut Vec<(u16, u16)>, wanted: bool, pair: (u16, u16)) -> Result<(), AllocError>
    ensures { OnOk result (out.new.items ≡ out.old.items ++ only_if wanted pair) }
{
    if wanted {
        out.push(pair)?;
    }
    Ok(())
}

/// Appends the refuted pairs with a in front.
fn push_row(
    out: &mut Vec<(u16, u16)>,
    raw: &RawStep,
    axis: Axis,
    a: u16,
    count: u16,
) -> Result<(), AllocError>
    requires radius { raw.now.radius ≤ 4 }
    requires in_order { ascends raw.now.refuted ≡ true }
    ensures { OnOk result (out.new.items ≡ out.old.items ++ row_of (spec.has_refutation raw.now axis) count a) }
{
    for b in 0..count {
        push_if(out, has_refutation(raw, axis, a, b), (a, b))?;
    }
    Ok(())
}

/// The pairs of an axis that a step refutes, by the first tile and then by the second.
pub fn list_refuted(alloc: Global, raw: &RawStep, axis: Axis) -> Result<Vec<(u16, u16)>, AllocError>
    requires radius { raw.now.radius ≤ 4 }
    requires in_order { ascends raw.now.refuted ≡ true }
    requires few { length raw.now.fine.tiles ≤ 256 }
    ensures { IfOk result (λ pairs. pairs.items ≡ refuted_of raw.now axis) }
{
    let count = raw.fine.tiles.as_slice().len() as u16;
    let mut out = Vec::new(alloc);
    for a in 0..count {
        push_row(&mut out, raw, axis, a, count)?;
    }
    Ok(out)
}
