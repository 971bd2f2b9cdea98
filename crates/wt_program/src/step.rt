// The step of a certificate that a word asks for.
ghost use Rattle.std.specs.Prelude.{◌≡◌, IfOk, MatchOption, None, Some, string_bytes, slice_get};
ghost use Rattle.wt_text.specs.Words.{value_from};
ghost use Rattle.wt_step.specs.Views.{link_of};
ghost use Rattle.wt_program.specs.Desubs.{step_text};

use crate::number::StepNumber;
use crate::reply::{Reply, refused_line};
use std::alloc::{AllocError, Global};
use wt_chain::Accepted;
use wt_line::number;
use wt_step::LinkRef;

/// The line of a step that can't be asked.
fn step_line(alloc: Global, step: StepNumber<'_>) -> Result<String, AllocError>
    ensures { IfOk result (λ text. string_bytes text ≡ step_text step.entry.text.now) }
{
    let word = step.text;
    format!(in alloc; "refused step {word}\n")
}

/// The refusal of a step that can't be asked.
pub fn refused_step(alloc: Global, step: StepNumber<'_>) -> Result<Reply, AllocError>
    ensures { IfOk result (λ reply. reply ≡ Reply.Refused (step_text step.entry.text.now)) }
{
    Ok(refused_line(step_line(alloc, step)?))
}

/// The step whose number a word spells, or None past the last.
pub fn step_at<'a>(chain: &'a Accepted, step: StepNumber<'_>) -> Option<LinkRef<'a>>
    ensures { MatchOption result (slice_get chain.now.steps (value_from 0 step.entry.text.now) ≡ None) (λ link. slice_get chain.now.steps (value_from 0 step.entry.text.now) ≡ Some (link_of link)) }
{
    let k = number(step.text.as_bytes())? as usize;
    if k < chain.steps() {
        Some(chain.step(k))
    } else {
        None
    }
}
