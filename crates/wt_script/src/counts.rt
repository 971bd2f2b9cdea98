// Counts over a loop.
ghost use Rattle.std.specs.Prelude.{◌≡◌, IfOk, ◌≤◌};
ghost use Rattle.wt_text.specs.Words.{tokens};
ghost use Rattle.wt_line.specs.Faults.{ReadsLine};
ghost use Rattle.wt_line.specs.Left.{ReadsPlace};
ghost use Rattle.wt_script.specs.Forms.{census_form, seeds_form};
ghost use Rattle.wt_script.specs.Parts.{census_part, primitive_part, seeds_part};
ghost use Rattle.wt_script.specs.Fits.{Fits};

use crate::limits::{MAX_POWER, MAX_TURNS};
use crate::rows::named_row;
use crate::token::{name, owned};
use crate::word::Word;
use std::alloc::Global;
use wt_line::{
    LineFault, Place, Rest, TextFault, What, line_end, next_line, number_from_one, number_to,
    placed, small_number, word,
};

/// `primitive C`.
#[tactic(auto, unfolding(crate::specs::Parts::primitive_part, wt_text::specs::Readers::one_line, wt_text::specs::Readers::seen_as))]
pub fn primitive_at(alloc: Global, place: Place<'_>) -> Result<(Word, Place<'_>), TextFault>
    ensures read { ReadsPlace primitive_part result place.entry }
    ensures fits { IfOk result (λ x. Fits x.0) }
{
    let (line, next) = next_line(place)?;
    let chain = placed(named_row("primitive", line), place.number)?;
    let word = Word::Primitive {
        chain: owned(alloc, chain)?,
    };
    Ok((word, next))
}

#[tactic(auto, using(wt_line::proofs::Ended::goes_on_is_wrong), unfolding(crate::specs::Forms::seeds_form, wt_text::specs::Readers::whole, wt_text::specs::Readers::value_behind, wt_text::specs::Readers::both))]
fn seeds_row(line: &[u8]) -> Result<(&[u8], u32), LineFault>
    ensures read { ReadsLine (λ x. (x.0.now, x.1)) result (seeds_form (tokens line.now)) }
    ensures within { IfOk result (λ x. (1 ≤ x.1) × (x.1 ≤ MAX_POWER)) }
{
    let rest = word("seeds", Rest::new(line))?;
    let (chain, rest) = name(rest)?;
    let (power, rest) = number_from_one(MAX_POWER, What::Power, rest)?;
    line_end(rest)?;
    Ok((chain, power?))
}

/// `seeds C q`.
#[tactic(auto, unfolding(crate::specs::Parts::seeds_part, wt_text::specs::Readers::one_line, wt_text::specs::Readers::seen_as))]
pub fn seeds_at(alloc: Global, place: Place<'_>) -> Result<(Word, Place<'_>), TextFault>
    ensures read { ReadsPlace seeds_part result place.entry }
    ensures fits { IfOk result (λ x. Fits x.0) }
{
    let (line, next) = next_line(place)?;
    let (chain, power) = placed(seeds_row(line), place.number)?;
    let word = Word::Seeds {
        chain: owned(alloc, chain)?,
        power,
    };
    Ok((word, next))
}

#[tactic(auto, using(wt_line::proofs::Ended::goes_on_is_wrong), unfolding(crate::specs::Forms::census_form, wt_text::specs::Readers::whole, wt_text::specs::Readers::value_behind, wt_text::specs::Readers::both))]
fn census_row(line: &[u8]) -> Result<(&[u8], u32, u16), LineFault>
    ensures read { ReadsLine (λ x. (x.0.now, (x.1, x.2))) result (census_form (tokens line.now)) }
    ensures within { IfOk result (λ x. (x.1 ≤ MAX_TURNS)) }
{
    let rest = word("census", Rest::new(line))?;
    let (chain, rest) = name(rest)?;
    let (turns, rest) = number_to(MAX_TURNS, What::Turns, rest)?;
    let (tile, rest) = small_number(rest)?;
    line_end(rest)?;
    Ok((chain, turns?, tile?))
}

/// `census C k t`.
#[tactic(auto, unfolding(crate::specs::Parts::census_part, wt_text::specs::Readers::one_line, wt_text::specs::Readers::seen_as))]
pub fn census_at(alloc: Global, place: Place<'_>) -> Result<(Word, Place<'_>), TextFault>
    ensures read { ReadsPlace census_part result place.entry }
    ensures fits { IfOk result (λ x. Fits x.0) }
{
    let (line, next) = next_line(place)?;
    let (chain, turns, tile) = placed(census_row(line), place.number)?;
    let word = Word::Census {
        chain: owned(alloc, chain)?,
        turns,
        tile,
    };
    Ok((word, next))
}
