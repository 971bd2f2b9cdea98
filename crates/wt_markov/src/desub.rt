//! Codes of points taken apart by a good step.
ghost use Rattle.std.specs.Prelude.{◌≡◌, ◌≤◌, None, IfOk};
ghost use Rattle.wt_pattern.specs.Patterns.{IsPattern};
ghost use Rattle.wt_torus.specs.Codes.{IsCode, code_fault, code_of};
ghost use Rattle.wt_markov.specs.Agree.{Agrees};
ghost use Rattle.wt_markov.specs.CodeDesub.{margin_fault, code_desub_fault, IsTakenApart, FailsByCode};
ghost use Rattle.wt_markov.specs.CodeDesub as spec;
ghost use Rattle.wt_markov.specs.Faults.{markov_fault};
ghost use Rattle.wt_markov.specs.WindowFaults.{window_fault};
ghost use Rattle.wt_grid.specs.Answers.{FailsByOr};

use crate::CodeDesubFault;
use std::alloc::Global;
use wt_grid::MAX_SIDE;
use wt_pattern::Pattern;
use wt_plane::Point;
use wt_step::{Coarse, DesubFault, LinkRef, StepRef, cuts_are_the_border_lines, desubstitute};
use wt_torus::{CodeFault, Partition, code, sound};

fn coded(
    alloc: Global,
    p: &Partition,
    z: &Point,
    w: usize,
    h: usize,
) -> Result<Pattern, CodeDesubFault>
    requires wide { (1 ≤ w) × (w ≤ MAX_SIDE) }
    requires high { (1 ≤ h) × (h ≤ MAX_SIDE) }
    ensures letters { IfOk result (λ g. IsCode p.now z.now g) }
    ensures code { IfOk result (λ g. g ≡ code_of p.now z.now w h) }
    ensures fault { FailsByCode result (code_fault p.now z.now w h) }
{
    match code(alloc, p, z, w, h) {
        Ok(g) => Ok(g),
        Err(CodeFault::OutOfMemory) => Err(CodeDesubFault::OutOfMemory),
        Err(fault) => Err(CodeDesubFault::Code(fault)),
    }
}

fn refusal(fault: DesubFault) -> CodeDesubFault
    ensures { result ≡ spec.refusal fault }
{
    match fault {
        DesubFault::NotValid(_) | DesubFault::TooSmall => CodeDesubFault::TooSmall,
        DesubFault::OutOfMemory => CodeDesubFault::OutOfMemory,
    }
}

fn taken_apart(alloc: Global, step: StepRef<'_>, g: &Pattern) -> Result<Coarse, CodeDesubFault>
    requires { IsPattern step.raw.now.fine.tiles g.now }
    ensures made { IfOk result (λ c. IsTakenApart step.entry.raw.now g.now c) }
    ensures fault { FailsByOr result (margin_fault step.entry.raw.now g.now) CodeDesubFault.OutOfMemory }
{
    match desubstitute(alloc, LinkRef::Marker(step), g) {
        Ok(coarse) => Ok(coarse),
        Err(fault) => Err(refusal(fault)),
    }
}

/// The code of a point, taken apart by a good step for whose fine set `markov` accepts the partition, and for which
/// `marker_window` does: the coarse pattern has, at each block where the induced code is defined, the coarse tile whose image
/// is the image of the induced letter. `Code` with the fault of `code`, where that has one; then `TooSmall` exactly where the
/// core of the code has fewer than three lines along the axis or no cell across. That the code isn't valid never comes.
pub fn code_desub(
    alloc: Global,
    step: StepRef<'_>,
    p: &Partition,
    z: &Point,
    w: usize,
    h: usize,
) -> Result<Coarse, CodeDesubFault>
    requires markov { markov_fault step.raw.now.fine.tiles p.now ≡ None }
    requires window { window_fault step.raw.now p.now ≡ None }
    requires wide { (1 ≤ w) × (w ≤ MAX_SIDE) }
    requires high { (1 ≤ h) × (h ≤ MAX_SIDE) }
    ensures code { IfOk result (λ _. IsCode p.now z.now (code_of p.now z.now w h)) }
    ensures made { IfOk result (λ c. IsTakenApart step.entry.raw.now (code_of p.now z.now w h) c) }
    ensures agrees { IfOk result (λ c. Agrees step.entry.raw.now p.now z.now (code_of p.now z.now w h) c.pattern) }
    ensures fault { FailsByOr result (code_desub_fault step.entry.raw.now p.now z.now w h) CodeDesubFault.OutOfMemory }
{
    sound(p);
    z.point();
    cuts_are_the_border_lines();
    let g = coded(alloc, p, z, w, h)?;
    taken_apart(alloc, step, &g)
}
