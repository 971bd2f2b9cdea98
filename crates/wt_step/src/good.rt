// Good steps, owned or borrowed.
ghost use Rattle.std.specs.Prelude.{◌≡◌, None, Some, MatchResult};
ghost use Rattle.wt_step.specs.Faults as spec;

use crate::step::step_fault;
use crate::{RawStep, StepFault};
use std::marker::Model;

/// A good marker step. Contracts see the `RawStep`.
#[derive(Drop)]
pub struct Step {
    raw: RawStep,
}

impl Model for Step {
    ghost use Rattle.std.specs.Prelude.{◌≡◌, None};
    ghost use Rattle.wt_step.specs.declared.raw.RawStep.{RawStep};
    ghost use Rattle.wt_step.specs.Faults.{step_fault};
    ghost use Rattle.wt_refute.specs.contracts.tree.Tree as e;
    ghost use Rattle.std.specs.Coded.{codes};

    ghost Value = { RawStep };

    ghost coded = { Prim.hlevel (codes, e.the_row.coded) };

    ghost view = { λ s. s.raw };

    ghost invariant = { λ s. step_fault s.raw ≡ None };
}

/// A good marker step, borrowed.
#[derive(Clone, Copy)]
pub struct StepRef<'a> {
    /// The step as it was read.
    pub raw: &'a RawStep,
    pub ghost good: { spec.step_fault raw.now ≡ None },
}

/// Takes a good marker step, or gives it back with its first failing condition. Takes no memory.
pub fn accept_step(raw: RawStep) -> Result<Step, (RawStep, StepFault)>
    ensures { MatchResult result
        (λ step. (step ≡ raw) × (spec.step_fault raw ≡ None))
        (λ e. (e.0 ≡ raw) × (spec.step_fault raw ≡ Some e.1)) }
{
    match step_fault(&raw) {
        None => Ok(Step { raw }),
        Some(fault) => Err((raw, fault)),
    }
}

impl Step {
    /// A step that is known to be good. Takes no memory.
    pub fn of(raw: RawStep) -> Step
        requires { spec.step_fault raw ≡ None }
        ensures { result ≡ raw }
    {
        Step { raw }
    }

    /// The step, borrowed.
    pub fn view(&self) -> StepRef<'_>
        ensures { result.raw.now ≡ self.now }
    {
        StepRef { raw: &self.raw }
    }

    /// The step as it was read. Takes no memory.
    pub fn into_raw(self) -> RawStep
        ensures same { result ≡ self }
        ensures good { spec.step_fault result ≡ None }
    {
        self.raw
    }
}

impl<'a> StepRef<'a> {
    /// Borrows a step that is known to be good.
    pub fn new(raw: &'a RawStep) -> StepRef<'a>
        requires { spec.step_fault raw.now ≡ None }
        ensures { result.raw.now ≡ raw.now }
    {
        StepRef { raw }
    }

    /// The step as it was read, borrowed.
    pub fn raw(self) -> &'a RawStep
        ensures { result.now ≡ self.entry.raw.now }
    {
        self.raw
    }
}
