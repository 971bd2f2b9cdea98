// Desubstitution by a good step of either kind.
ghost use Rattle.std.specs.Prelude.{◌≡◌, ◌≤◌, ◌⊎◌, ◌&&◌, nat_le, length, None, Some, true, IfOk, IfErr, IsErrOf};
ghost use Rattle.wt_grid.specs.Grid.{along, across};
ghost use Rattle.wt_grid.specs.Parts.{core};
ghost use Rattle.wt_pattern.specs.Patterns.{IsPattern};
ghost use Rattle.wt_pattern.specs.Shape.{IsShape};
ghost use Rattle.wt_pattern.specs.Validity.{first_stranger, first_fault};
ghost use Rattle.wt_step.specs.Links.{fine_of, coarse_of};
ghost use Rattle.wt_step.specs.Views.{link_of};
ghost use Rattle.wt_step.specs.Cores.{core_length, core_width};
ghost use Rattle.wt_step.specs.Coarse.{IsDesubstitution, cuts_low, cuts_high, desub_fault};
ghost use Rattle.wt_step.specs.Coarse as spec;

use crate::apart::{core_across, core_lines, take_apart};
use crate::keep::keep;
use crate::{Coarse, DesubFault, LinkRef, RawRestrict, RawStep};
use std::alloc::{AllocError, Global};
use wt_pattern::{Pattern, valid};
use wt_tile::Axis;

fn marker_margin(raw: &RawStep, p: &Pattern) -> bool
    ensures shape { IsShape p.now }
    ensures value { result ≡ (nat_le 3 (core_length raw.now p.now) && nat_le 1 (core_width raw.now p.now)) }
{
    core_lines(p, raw.axis, raw.radius) >= 3 && core_across(p, raw.axis, raw.radius) >= 1
}

fn restrict_margin(raw: &RawRestrict, p: &Pattern) -> bool
    ensures shape { IsShape p.now }
    ensures value { result ≡ (nat_le 1 (core raw.now.radius p.now).width && nat_le 1 (core raw.now.radius p.now).height) }
{
    core_lines(p, Axis::One, raw.radius) >= 1 && core_across(p, Axis::One, raw.radius) >= 1
}

/// Whether the core is as large as the law of desubstitution asks.
fn has_margin(link: LinkRef<'_>, p: &Pattern) -> bool
    ensures shape { IsShape p.now }
    ensures value { result ≡ spec.has_margin (link_of link.entry) p.now }
{
    match link {
        LinkRef::Marker(step) => marker_margin(step.raw, p),
        LinkRef::Restrict(step) => restrict_margin(step.raw, p),
    }
}

/// The coarse pattern of a valid pattern with the margin.
#[tactic(auto, using(crate::proofs::Margins::marker_long, crate::proofs::Margins::marker_wide, crate::proofs::Margins::kept_wide, crate::proofs::Margins::kept_high))]
fn take_link_apart(alloc: Global, link: LinkRef<'_>, p: &Pattern) -> Result<Coarse, AllocError>
    requires pattern { IsPattern (fine_of (link_of link)).tiles p.now }
    requires margin { spec.has_margin (link_of link) p.now ≡ true }
    ensures coarse { IfOk result (λ c. IsDesubstitution (link_of link.entry) p.now c.pattern) }
    ensures valid { IfOk result (λ c. IsPattern (coarse_of (link_of link.entry)).tiles c.pattern) }
    ensures low_cut { IfOk result (λ c. c.low_cut ≡ cuts_low (link_of link.entry) p.now) }
    ensures high_cut { IfOk result (λ c. c.high_cut ≡ cuts_high (link_of link.entry) p.now) }
{
    match link {
        LinkRef::Marker(step) => take_apart(alloc, step.raw, p),
        LinkRef::Restrict(step) => {
            let pattern = keep(alloc, step.raw, p)?;
            Ok(Coarse {
                pattern,
                low_cut: false,
                high_cut: false,
            })
        }
    }
}

/// Takes apart a pattern of fine tiles: the coarse pattern whose image is the core of the step's radius
/// without border lines that no block holds, and whether the first and the last line are cut. There is
/// exactly one, as `desubstitutes` and `restricts` say. Refuses what isn't valid, with its first fault, then
/// a core below 3 lines along the axis by 1 across, or for a restrict step without a cell. After Labbé,
/// "Substitutive structure of Jeandel-Rao aperiodic tilings".
pub fn desubstitute(alloc: Global, link: LinkRef<'_>, p: &Pattern) -> Result<Coarse, DesubFault>
    requires { first_stranger (length (fine_of (link_of link)).tiles) p.now ≡ None }
    ensures refused { (fault : DesubFault) → desub_fault (link_of link.entry) p.now ≡ Some fault → IsErrOf result fault }
    ensures refusal { IfErr result (λ fault. (fault ≡ DesubFault.OutOfMemory) ⊎ (desub_fault (link_of link.entry) p.now ≡ Some fault)) }
    ensures coarse { IfOk result (λ c. IsDesubstitution (link_of link.entry) p.now c.pattern) }
    ensures valid { IfOk result (λ c. IsPattern (coarse_of (link_of link.entry)).tiles c.pattern) }
    ensures low_cut { IfOk result (λ c. c.low_cut ≡ cuts_low (link_of link.entry) p.now) }
    ensures high_cut { IfOk result (λ c. c.high_cut ≡ cuts_high (link_of link.entry) p.now) }
{
    match valid(link.fine(), p) {
        Some(fault) => Err(DesubFault::NotValid(fault)),
        None => {
            p.width();
            desubstitute_valid(alloc, link, p)
        }
    }
}

/// What `desubstitute` answers of a pattern that is known to be valid, which isn't tested again.
#[tactic(auto, using(crate::proofs::Margins::valid_fault))]
pub fn desubstitute_valid(
    alloc: Global,
    link: LinkRef<'_>,
    p: &Pattern,
) -> Result<Coarse, DesubFault>
    requires { IsPattern (fine_of (link_of link)).tiles p.now }
    ensures refused { (fault : DesubFault) → desub_fault (link_of link.entry) p.now ≡ Some fault → IsErrOf result fault }
    ensures refusal { IfErr result (λ fault. (fault ≡ DesubFault.OutOfMemory) ⊎ (desub_fault (link_of link.entry) p.now ≡ Some fault)) }
    ensures coarse { IfOk result (λ c. IsDesubstitution (link_of link.entry) p.now c.pattern) }
    ensures valid { IfOk result (λ c. IsPattern (coarse_of (link_of link.entry)).tiles c.pattern) }
    ensures low_cut { IfOk result (λ c. c.low_cut ≡ cuts_low (link_of link.entry) p.now) }
    ensures high_cut { IfOk result (λ c. c.high_cut ≡ cuts_high (link_of link.entry) p.now) }
{
    if !has_margin(link, p) {
        return Err(DesubFault::TooSmall);
    }
    match take_link_apart(alloc, link, p) {
        Ok(coarse) => Ok(coarse),
        Err(_) => Err(DesubFault::OutOfMemory),
    }
}
