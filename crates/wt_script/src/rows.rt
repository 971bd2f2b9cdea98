// First lines of one form that several commands have.
ghost use Rattle.std.specs.Prelude.{◌^◌, ◌<◌, ◌≤◌, IfOk, unsigned_abs};
ghost use Rattle.wt_text.specs.Words.{tokens};
ghost use Rattle.wt_line.specs.Faults.{ReadsLine};
ghost use Rattle.wt_script.specs.Forms.{named_form, names_form, vector_form, windows_form};

use crate::token;
use crate::token::{component, large};
use wt_grid::Axis;
use wt_line::{LineFault, MAX_RADIUS, Rest, axis, line_end, radius, word};

/// A word and a name.
#[tactic(auto, using(wt_line::proofs::Ended::goes_on_is_wrong), unfolding(crate::specs::Forms::named_form, wt_text::specs::Readers::whole, wt_text::specs::Readers::value_behind, wt_text::specs::Readers::both))]
pub fn named_row<'a>(name: &str, line: &'a [u8]) -> Result<&'a [u8], LineFault>
    ensures read { ReadsLine (λ x. x.now) result (named_form name.now (tokens line.now)) }
{
    let rest = word(name, Rest::new(line))?;
    let (found, rest) = token::name(rest)?;
    line_end(rest)?;
    Ok(found)
}

/// A word and two names.
#[tactic(auto, using(wt_line::proofs::Ended::goes_on_is_wrong), unfolding(crate::specs::Forms::names_form, wt_text::specs::Readers::whole, wt_text::specs::Readers::value_behind, wt_text::specs::Readers::both))]
pub fn names_row<'a>(name: &str, line: &'a [u8]) -> Result<(&'a [u8], &'a [u8]), LineFault>
    ensures read { ReadsLine (λ x. (x.0.now, x.1.now)) result (names_form name.now (tokens line.now)) }
{
    let rest = word(name, Rest::new(line))?;
    let (first, rest) = token::name(rest)?;
    let (second, rest) = token::name(rest)?;
    line_end(rest)?;
    Ok((first, second))
}

/// A word, a name and a vector.
#[tactic(auto, using(wt_line::proofs::Ended::goes_on_is_wrong), unfolding(crate::specs::Forms::vector_form, wt_text::specs::Readers::whole, wt_text::specs::Readers::value_behind, wt_text::specs::Readers::both))]
pub fn vector_row<'a>(name: &str, line: &'a [u8]) -> Result<(&'a [u8], i64, i64), LineFault>
    ensures read { ReadsLine (λ x. (x.0.now, (x.1, x.2))) result (vector_form name.now (tokens line.now)) }
    ensures within { IfOk result (λ x. (unsigned_abs x.1 < 2 ^ 63) × (unsigned_abs x.2 < 2 ^ 63)) }
{
    let rest = word(name, Rest::new(line))?;
    let (found, rest) = token::name(rest)?;
    let (dx, rest) = component(rest)?;
    let (dy, rest) = component(rest)?;
    line_end(rest)?;
    Ok((found, dx?, dy?))
}

/// A word, a set, an axis, a radius and a budget.
#[tactic(auto, using(wt_line::proofs::Ended::goes_on_is_wrong), unfolding(crate::specs::Forms::windows_form, wt_text::specs::Readers::whole, wt_text::specs::Readers::value_behind, wt_text::specs::Readers::both))]
pub fn windows_row<'a>(name: &str, line: &'a [u8]) -> Result<(&'a [u8], Axis, u8, u64), LineFault>
    ensures read { ReadsLine (λ x. (x.0.now, (x.1, (x.2, x.3)))) result (windows_form name.now (tokens line.now)) }
    ensures within { IfOk result (λ x. (x.2 ≤ MAX_RADIUS)) }
{
    let rest = word(name, Rest::new(line))?;
    let (set, rest) = token::name(rest)?;
    let (axis, rest) = axis(rest)?;
    let (radius, rest) = radius(rest)?;
    let (budget, rest) = large(rest)?;
    line_end(rest)?;
    Ok((set, axis, radius?, budget?))
}
