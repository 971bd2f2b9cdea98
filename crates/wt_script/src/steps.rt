// Commands that make or use steps.
ghost use Rattle.std.specs.Prelude.{◌≡◌, IfOk, ◌≤◌, length};
ghost use Rattle.wt_text.specs.Words.{tokens};
ghost use Rattle.wt_line.specs.Faults.{ReadsLine};
ghost use Rattle.wt_line.specs.Left.{ReadsPlace};
ghost use Rattle.wt_script.specs.Forms.{derive_form, desub_form, search_form};
ghost use Rattle.wt_script.specs.Parts.{derive_part, desub_part, search_part};
ghost use Rattle.wt_script.specs.Fits.{Fits};

use crate::limits::{MAX_AXES, MAX_LEVELS};
use crate::token::{axes, large, name, owned};
use crate::word::Word;
use std::alloc::Global;
use wt_grid::{Axis, Side};
use wt_line::{
    LineFault, MAX_RADIUS, Place, Rest, TextFault, What, axis, line_end, next_line,
    number_from_one, placed, radius, side, small_number, word,
};
use wt_seq::Seq;

#[tactic(auto, using(wt_line::proofs::Ended::goes_on_is_wrong), unfolding(crate::specs::Forms::derive_form, wt_text::specs::Readers::whole, wt_text::specs::Readers::value_behind, wt_text::specs::Readers::both))]
fn derive_row(line: &[u8]) -> Result<(&[u8], &[u8], Axis, Side, u8, u16, u64), LineFault>
    ensures read { ReadsLine (λ x. (x.0.now, (x.1.now, (x.2, (x.3, (x.4, (x.5, x.6))))))) result (derive_form (tokens line.now)) }
    ensures within { IfOk result (λ x. (x.4 ≤ MAX_RADIUS)) }
{
    let rest = word("derive", Rest::new(line))?;
    let (bound, rest) = name(rest)?;
    let (base, rest) = name(rest)?;
    let (axis, rest) = axis(rest)?;
    let (side, rest) = side(rest)?;
    let (radius, rest) = radius(rest)?;
    let (class, rest) = small_number(rest)?;
    let (budget, rest) = large(rest)?;
    line_end(rest)?;
    Ok((bound, base, axis, side, radius?, class?, budget?))
}

/// `derive N F A W r j B`.
#[tactic(auto, unfolding(crate::specs::Parts::derive_part, wt_text::specs::Readers::one_line, wt_text::specs::Readers::seen_as))]
pub fn derive_at(alloc: Global, place: Place<'_>) -> Result<(Word, Place<'_>), TextFault>
    ensures read { ReadsPlace derive_part result place.entry }
    ensures fits { IfOk result (λ x. Fits x.0) }
{
    let (line, next) = next_line(place)?;
    let (bound, base, axis, side, radius, class, budget) = placed(derive_row(line), place.number)?;
    let word = Word::Derive {
        name: owned(alloc, bound)?,
        base: owned(alloc, base)?,
        axis,
        side,
        radius,
        class: usize::from(class),
        budget,
    };
    Ok((word, next))
}

#[tactic(auto, using(wt_line::proofs::Ended::goes_on_is_wrong), unfolding(crate::specs::Forms::search_form, wt_text::specs::Readers::whole, wt_text::specs::Readers::value_behind, wt_text::specs::Readers::both))]
fn search_row(
    alloc: Global,
    line: &[u8],
) -> Result<(&[u8], &[u8], Seq<Axis>, Side, u8, u32, u64), LineFault>
    ensures read { ReadsLine (λ x. (x.0.now, (x.1.now, (x.2, (x.3, (x.4, (x.5, x.6))))))) result (search_form (tokens line.now)) }
    ensures within { IfOk result (λ x. (1 ≤ length x.2) × (length x.2 ≤ MAX_AXES) × (x.4 ≤ MAX_RADIUS) × (1 ≤ x.5) × (x.5 ≤ MAX_LEVELS)) }
{
    let rest = word("search", Rest::new(line))?;
    let (bound, rest) = name(rest)?;
    let (set, rest) = name(rest)?;
    let (axes, rest) = axes(alloc, rest)?;
    let (side, rest) = side(rest)?;
    let (radius, rest) = radius(rest)?;
    let (levels, rest) = number_from_one(MAX_LEVELS, What::Steps, rest)?;
    let (budget, rest) = large(rest)?;
    line_end(rest)?;
    Ok((bound, set, axes, side, radius?, levels?, budget?))
}

/// `search N S X W r L B`.
#[tactic(auto, unfolding(crate::specs::Parts::search_part, wt_text::specs::Readers::one_line, wt_text::specs::Readers::seen_as))]
pub fn search_at(alloc: Global, place: Place<'_>) -> Result<(Word, Place<'_>), TextFault>
    ensures read { ReadsPlace search_part result place.entry }
    ensures fits { IfOk result (λ x. Fits x.0) }
{
    let (line, next) = next_line(place)?;
    let (bound, set, axes, side, radius, levels, budget) = placed(
        search_row(alloc, line),
        place.number,
    )?;
    let word = Word::Search {
        name: owned(alloc, bound)?,
        set: owned(alloc, set)?,
        axes,
        side,
        radius,
        levels: levels as usize,
        budget,
    };
    Ok((word, next))
}

#[tactic(auto, using(wt_line::proofs::Ended::goes_on_is_wrong), unfolding(crate::specs::Forms::desub_form, wt_text::specs::Readers::whole, wt_text::specs::Readers::value_behind, wt_text::specs::Readers::both))]
fn desub_row(line: &[u8]) -> Result<(&[u8], &[u8], u16, &[u8]), LineFault>
    ensures read { ReadsLine (λ x. (x.0.now, (x.1.now, (x.2, x.3.now)))) result (desub_form (tokens line.now)) }
{
    let rest = word("desub", Rest::new(line))?;
    let (bound, rest) = name(rest)?;
    let (chain, rest) = name(rest)?;
    let (step, rest) = small_number(rest)?;
    let (pattern, rest) = name(rest)?;
    line_end(rest)?;
    Ok((bound, chain, step?, pattern))
}

/// `desub N C k P`.
#[tactic(auto, unfolding(crate::specs::Parts::desub_part, wt_text::specs::Readers::one_line, wt_text::specs::Readers::seen_as))]
pub fn desub_at(alloc: Global, place: Place<'_>) -> Result<(Word, Place<'_>), TextFault>
    ensures read { ReadsPlace desub_part result place.entry }
    ensures fits { IfOk result (λ x. Fits x.0) }
{
    let (line, next) = next_line(place)?;
    let (bound, chain, step, pattern) = placed(desub_row(line), place.number)?;
    let word = Word::Desub {
        name: owned(alloc, bound)?,
        chain: owned(alloc, chain)?,
        step: usize::from(step),
        pattern: owned(alloc, pattern)?,
    };
    Ok((word, next))
}
