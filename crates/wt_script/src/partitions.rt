// Commands on partitions.
ghost use Rattle.std.specs.Prelude.{◌≡◌, ◌≤◌, IfOk};
ghost use Rattle.wt_text.specs.Readers.{mapped, pair};
ghost use Rattle.wt_text.specs.Words.{tokens};
ghost use Rattle.wt_line.specs.Faults.{ReadsLine};
ghost use Rattle.wt_line.specs.Left.{ReadsPlace};
ghost use Rattle.wt_script.specs.Forms.{code_form, induce_form};
ghost use Rattle.wt_script.specs.Parts.{code_part, induce_part, torus_part};
ghost use Rattle.wt_script.specs.TorusText.{torus_form};
ghost use Rattle.wt_script.specs.Fits.{Fits};

use crate::goldens::golden;
use crate::limits::MAX_MADE;
use crate::token::{name, owned};
use crate::torus::{RawBox, regions_at, sides};
use crate::word::Word;
use std::alloc::Global;
use wt_golden::Golden;
use wt_grid::Axis;
use wt_line::{
    LineFault, Place, Rest, TextFault, What, axis, line_end, next_line, number_from_one, number_to,
    placed, word,
};
use wt_seq::Seq;
use wt_torus::MAX_REGIONS;

#[tactic(auto, using(wt_line::proofs::Ended::goes_on_is_wrong), unfolding(crate::specs::TorusText::torus_form, wt_text::specs::Readers::whole, wt_text::specs::Readers::value_behind, wt_text::specs::Readers::both))]
fn torus_row(alloc: Global, line: &[u8]) -> Result<(Seq<u8>, RawBox, u32), LineFault>
    ensures { ReadsLine (λ x. (x.0, (x.1, x.2))) result (torus_form (tokens line.now)) }
{
    let rest = word("torus", Rest::new(line))?;
    let (bound, rest) = name(rest)?;
    let Some((sides, rest)) = sides(rest) else {
        return Err(LineFault::Wrong);
    };
    let (count, rest) = number_to(MAX_REGIONS as u32, What::Regions, rest)?;
    line_end(rest)?;
    let name = owned(alloc, bound)?;
    Ok((name, sides?, count?))
}

/// `torus N GA GB Ga Gb n`, and n regions.
#[tactic(auto, unfolding(crate::specs::Parts::torus_part, wt_text::specs::Readers::one_line, wt_text::specs::Readers::part_by, wt_text::specs::Readers::seen_as))]
pub fn partition_at(alloc: Global, place: Place<'_>) -> Result<(Word, Place<'_>), TextFault>
    ensures read { ReadsPlace torus_part result place.entry }
    ensures fits { IfOk result (λ x. Fits x.0) }
{
    let (line, next) = next_line(place)?;
    let (name, sides, count) = placed(torus_row(alloc, line), place.number)?;
    let (regions, place) = regions_at(alloc, count, next)?;
    let word = Word::Torus {
        name,
        width: sides.width,
        height: sides.height,
        move1: sides.move1,
        move2: sides.move2,
        regions,
    };
    Ok((word, place))
}

/// The first limit that is passed, from left to right, or the point and the size of a code.
fn code_within(
    x: Result<Golden, What>,
    y: Result<Golden, What>,
    width: Result<u32, What>,
    height: Result<u32, What>,
) -> Result<(Golden, Golden, u32, u32), What>
    ensures { mapped (λ c. (c.0, (c.1, (c.2, c.3)))) result ≡ pair x (pair y (pair width height)) }
{
    Ok((x?, y?, width?, height?))
}

#[tactic(auto, using(wt_line::proofs::Ended::goes_on_is_wrong), unfolding(crate::specs::Forms::code_form, wt_text::specs::Readers::whole, wt_text::specs::Readers::value_behind, wt_text::specs::Readers::both))]
fn code_row(
    alloc: Global,
    line: &[u8],
) -> Result<(Seq<u8>, Seq<u8>, Golden, Golden, u32, u32), LineFault>
    ensures read { ReadsLine (λ x. (x.0, (x.1, (x.2, (x.3, (x.4, x.5)))))) result (code_form (tokens line.now)) }
    ensures within { IfOk result (λ x. (1 ≤ x.4) × (x.4 ≤ MAX_MADE) × (1 ≤ x.5) × (x.5 ≤ MAX_MADE)) }
{
    let rest = word("code", Rest::new(line))?;
    let (bound, rest) = name(rest)?;
    let (torus, rest) = name(rest)?;
    let Some((x, rest)) = golden(rest) else {
        return Err(LineFault::Wrong);
    };
    let Some((y, rest)) = golden(rest) else {
        return Err(LineFault::Wrong);
    };
    let (width, rest) = number_from_one(MAX_MADE, What::Width, rest)?;
    let (height, rest) = number_from_one(MAX_MADE, What::Height, rest)?;
    line_end(rest)?;
    let name = owned(alloc, bound)?;
    let torus = owned(alloc, torus)?;
    Ok((name, torus, x?, y?, width?, height?))
}

/// `code N T Gx Gy w h`.
#[tactic(auto, unfolding(crate::specs::Parts::code_part, wt_text::specs::Readers::one_line, wt_text::specs::Readers::seen_as))]
pub fn code_at(alloc: Global, place: Place<'_>) -> Result<(Word, Place<'_>), TextFault>
    ensures read { ReadsPlace code_part result place.entry }
    ensures fits { IfOk result (λ x. Fits x.0) }
{
    let (line, next) = next_line(place)?;
    let (name, torus, x, y, width, height) = placed(code_row(alloc, line), place.number)?;
    let word = Word::Code {
        name,
        torus,
        x,
        y,
        width: width as usize,
        height: height as usize,
    };
    Ok((word, next))
}

#[tactic(auto, using(wt_line::proofs::Ended::goes_on_is_wrong), unfolding(crate::specs::Forms::induce_form, wt_text::specs::Readers::whole, wt_text::specs::Readers::value_behind, wt_text::specs::Readers::both))]
fn induce_row(line: &[u8]) -> Result<(&[u8], &[u8], Axis), LineFault>
    ensures { ReadsLine (λ x. (x.0.now, (x.1.now, x.2))) result (induce_form (tokens line.now)) }
{
    let rest = word("induce", Rest::new(line))?;
    let (bound, rest) = name(rest)?;
    let (torus, rest) = name(rest)?;
    let (axis, rest) = axis(rest)?;
    line_end(rest)?;
    Ok((bound, torus, axis))
}

/// `induce N T A`.
#[tactic(auto, unfolding(crate::specs::Parts::induce_part, wt_text::specs::Readers::one_line, wt_text::specs::Readers::seen_as))]
pub fn induce_at(alloc: Global, place: Place<'_>) -> Result<(Word, Place<'_>), TextFault>
    ensures read { ReadsPlace induce_part result place.entry }
    ensures fits { IfOk result (λ x. Fits x.0) }
{
    let (line, next) = next_line(place)?;
    let (bound, torus, axis) = placed(induce_row(line), place.number)?;
    let word = Word::Induce {
        name: owned(alloc, bound)?,
        torus: owned(alloc, torus)?,
        axis,
    };
    Ok((word, next))
}
