// Commands on windows.
ghost use Rattle.std.specs.Prelude.{◌≡◌, IfOk, ◌≤◌};
ghost use Rattle.wt_text.specs.Words.{tokens};
ghost use Rattle.wt_line.specs.Faults.{ReadsLine};
ghost use Rattle.wt_line.specs.Left.{ReadsPlace};
ghost use Rattle.wt_script.specs.Forms.{surround_form};
ghost use Rattle.wt_script.specs.Parts.{dominoes_part, markers_part, surround_part};
ghost use Rattle.wt_script.specs.Fits.{Fits};

use crate::rows::windows_row;
use crate::token::{large, name, owned};
use crate::word::Word;
use std::alloc::Global;
use wt_grid::Axis;
use wt_line::{
    LineFault, MAX_RADIUS, Place, Rest, TextFault, axis, line_end, next_line, placed, radius,
    small_number, word,
};

/// `dominoes S A r B`.
#[tactic(auto, unfolding(crate::specs::Parts::dominoes_part, wt_text::specs::Readers::one_line, wt_text::specs::Readers::seen_as))]
pub fn dominoes_at(alloc: Global, place: Place<'_>) -> Result<(Word, Place<'_>), TextFault>
    ensures read { ReadsPlace dominoes_part result place.entry }
    ensures fits { IfOk result (λ x. Fits x.0) }
{
    let (line, next) = next_line(place)?;
    let (set, axis, radius, budget) = placed(windows_row("dominoes", line), place.number)?;
    let word = Word::Dominoes {
        set: owned(alloc, set)?,
        axis,
        radius,
        budget,
    };
    Ok((word, next))
}

/// `markers S A r B`.
#[tactic(auto, unfolding(crate::specs::Parts::markers_part, wt_text::specs::Readers::one_line, wt_text::specs::Readers::seen_as))]
pub fn markers_at(alloc: Global, place: Place<'_>) -> Result<(Word, Place<'_>), TextFault>
    ensures read { ReadsPlace markers_part result place.entry }
    ensures fits { IfOk result (λ x. Fits x.0) }
{
    let (line, next) = next_line(place)?;
    let (set, axis, radius, budget) = placed(windows_row("markers", line), place.number)?;
    let word = Word::Markers {
        set: owned(alloc, set)?,
        axis,
        radius,
        budget,
    };
    Ok((word, next))
}

#[tactic(auto, using(wt_line::proofs::Ended::goes_on_is_wrong), unfolding(crate::specs::Forms::surround_form, wt_text::specs::Readers::whole, wt_text::specs::Readers::value_behind, wt_text::specs::Readers::both))]
fn surround_row(line: &[u8]) -> Result<(&[u8], Axis, u16, u16, u8, u64), LineFault>
    ensures read { ReadsLine (λ x. (x.0.now, (x.1, (x.2, (x.3, (x.4, x.5)))))) result (surround_form (tokens line.now)) }
    ensures within { IfOk result (λ x. (x.4 ≤ MAX_RADIUS)) }
{
    let rest = word("surround", Rest::new(line))?;
    let (set, rest) = name(rest)?;
    let (axis, rest) = axis(rest)?;
    let (a, rest) = small_number(rest)?;
    let (b, rest) = small_number(rest)?;
    let (radius, rest) = radius(rest)?;
    let (budget, rest) = large(rest)?;
    line_end(rest)?;
    Ok((set, axis, a?, b?, radius?, budget?))
}

/// `surround S A a b r B`.
#[tactic(auto, unfolding(crate::specs::Parts::surround_part, wt_text::specs::Readers::one_line, wt_text::specs::Readers::seen_as))]
pub fn surround_at(alloc: Global, place: Place<'_>) -> Result<(Word, Place<'_>), TextFault>
    ensures read { ReadsPlace surround_part result place.entry }
    ensures fits { IfOk result (λ x. Fits x.0) }
{
    let (line, next) = next_line(place)?;
    let (set, axis, a, b, radius, budget) = placed(surround_row(line), place.number)?;
    let word = Word::Surround {
        set: owned(alloc, set)?,
        axis,
        a,
        b,
        radius,
        budget,
    };
    Ok((word, next))
}
