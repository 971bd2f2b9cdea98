// A torus and its regions, as they are read.
ghost use Rattle.std.specs.Prelude.{◌≡◌, option_map};
ghost use Rattle.wt_line.specs.Faults.{ReadsLine, ReadsText};
ghost use Rattle.wt_line.specs.Left.{lines_left, tokens_left, ReadsPlace};
ghost use Rattle.wt_script.specs.TorusText.{plain_torus_form, plain_torus_part, plane_form, plane_part, planes_part, region_form, region_part, regions_part};
ghost use Rattle.wt_script.specs.TorusText as spec;
ghost use Rattle.wt_text.specs.Readers.{mapped, one_line, pair};
ghost use Rattle.wt_text.specs.Words.{tokens};

use crate::goldens::golden;
use crate::limits::MAX_LABEL;
use crate::token::plane_number;
use std::alloc::Global;
use wt_golden::Golden;
use wt_line::{
    LineFault, Place, Rest, TextFault, What, line_end, next_line, number_to, placed, word,
};
use wt_seq::Seq;
use wt_torus::{MAX_PLANES, MAX_REGIONS};

/// The sides of a box and its moves along both axes, as they are read: each in lowest terms, but the moves may be any.
#[derive(Clone, Copy, Drop)]
pub struct RawBox {
    /// The side along axis 1.
    pub width: Golden,
    /// The side along axis 2.
    pub height: Golden,
    /// The move along axis 1.
    pub move1: Golden,
    /// The move along axis 2.
    pub move2: Golden,
}

/// A region as it is read.
#[derive(Drop)]
pub struct RawRegion {
    /// The label, at most 255.
    pub label: u16,
    /// The six numbers p0, p1, q0, q1, r0, r1 of each half-plane, below 2^18 in absolute value. They may be those of none.
    pub planes: Seq<[i64; 6]>,
}

/// A torus and its regions as they are read: it may be none, and its half-planes may be none.
#[derive(Drop)]
pub struct RawTorus {
    /// The box and its moves.
    pub sides: RawBox,
    /// The regions, at most 1024, each of at most 64 half-planes.
    pub regions: Seq<RawRegion>,
}

/// The first limit of the four numbers that is passed, from left to right, or the box.
fn box_within(
    width: Result<Golden, What>,
    height: Result<Golden, What>,
    move1: Result<Golden, What>,
    move2: Result<Golden, What>,
) -> Result<RawBox, What>
    ensures { result ≡ mapped spec.to_box (pair width (pair height (pair move1 move2))) }
{
    Ok(RawBox {
        width: width?,
        height: height?,
        move1: move1?,
        move2: move2?,
    })
}

/// The width, the height and the two moves, and what is left of the line.
#[tactic(auto, unfolding(crate::specs::TorusText::sides, wt_text::specs::Readers::both))]
pub fn sides(rest: Rest<'_>) -> Option<(Result<RawBox, What>, Rest<'_>)>
    ensures { option_map (λ x. (x.0, tokens_left x.1)) result ≡ spec.sides (tokens_left rest.entry) }
{
    let Some((width, rest)) = golden(rest) else {
        return None;
    };
    let Some((height, rest)) = golden(rest) else {
        return None;
    };
    let Some((move1, rest)) = golden(rest) else {
        return None;
    };
    let Some((move2, rest)) = golden(rest) else {
        return None;
    };
    Some((box_within(width, height, move1, move2), rest))
}

#[tactic(auto, using(wt_line::proofs::Ended::goes_on_is_wrong), unfolding(crate::specs::TorusText::plane_form, wt_text::specs::Readers::whole, wt_text::specs::Readers::both))]
fn plane_row(line: &[u8]) -> Result<(i64, i64, i64, i64, i64, i64), LineFault>
    ensures { ReadsLine (λ x. (x.0, (x.1, (x.2, (x.3, (x.4, x.5)))))) result (plane_form (tokens line.now)) }
{
    let (p0, rest) = plane_number(Rest::new(line))?;
    let (p1, rest) = plane_number(rest)?;
    let (q0, rest) = plane_number(rest)?;
    let (q1, rest) = plane_number(rest)?;
    let (r0, rest) = plane_number(rest)?;
    let (r1, rest) = plane_number(rest)?;
    line_end(rest)?;
    Ok((p0?, p1?, q0?, q1?, r0?, r1?))
}

/// A half-plane in a line.
#[tactic(auto, unfolding(wt_text::specs::Readers::one_line, wt_text::specs::Readers::seen_as))]
fn plane_at(place: Place<'_>) -> Result<([i64; 6], Place<'_>), TextFault>
    ensures { ReadsPlace plane_part result place.entry }
{
    let (line, next) = next_line(place)?;
    let (p0, p1, q0, q1, r0, r1) = placed(plane_row(line), place.number)?;
    Ok(([p0, p1, q0, q1, r0, r1], next))
}

/// n half-planes.
fn planes_at(
    alloc: Global,
    count: u32,
    place: Place<'_>,
) -> Result<(Seq<[i64; 6]>, Place<'_>), TextFault>
    ensures { ReadsPlace (planes_part count) result place.entry }
{
    let mut planes = Vec::new(alloc);
    let mut place = place;
    for _ in 0..count {
        let (plane, next) = plane_at(place)?;
        planes.push(plane)?;
        place = next;
    }
    Ok((Seq::new(planes), place))
}

#[tactic(auto, using(wt_line::proofs::Ended::goes_on_is_wrong), unfolding(crate::specs::TorusText::region_form, wt_text::specs::Readers::whole, wt_text::specs::Readers::value_behind, wt_text::specs::Readers::both))]
fn region_row(line: &[u8]) -> Result<(u16, u32), LineFault>
    ensures { ReadsLine (λ x. (x.0, x.1)) result (region_form (tokens line.now)) }
{
    let rest = word("region", Rest::new(line))?;
    let (label, rest) = number_to(MAX_LABEL, What::Tiles, rest)?;
    let (count, rest) = number_to(MAX_PLANES as u32, What::Planes, rest)?;
    line_end(rest)?;
    Ok((label? as u16, count?))
}

#[tactic(auto, unfolding(wt_text::specs::Readers::one_line))]
fn region_head(place: Place<'_>) -> Result<((u16, u32), Place<'_>), TextFault>
    ensures { ReadsText (λ x. ((x.0.0, x.0.1), lines_left x.1)) result (one_line region_form (lines_left place.entry)) }
{
    let (line, next) = next_line(place)?;
    let head = placed(region_row(line), place.number)?;
    Ok((head, next))
}

/// `region LABEL k`, and k half-planes.
#[tactic(auto, unfolding(crate::specs::TorusText::region_part, wt_text::specs::Readers::part_by, wt_text::specs::Readers::seen_as))]
fn region_at(alloc: Global, place: Place<'_>) -> Result<(RawRegion, Place<'_>), TextFault>
    ensures { ReadsPlace region_part result place.entry }
{
    let ((label, count), place) = region_head(place)?;
    let (planes, place) = planes_at(alloc, count, place)?;
    Ok((RawRegion { label, planes }, place))
}

/// n regions.
pub fn regions_at(
    alloc: Global,
    count: u32,
    place: Place<'_>,
) -> Result<(Seq<RawRegion>, Place<'_>), TextFault>
    ensures { ReadsPlace (regions_part count) result place.entry }
{
    let mut regions = Vec::new(alloc);
    let mut place = place;
    for _ in 0..count {
        let (region, next) = region_at(alloc, place)?;
        regions.push(region)?;
        place = next;
    }
    Ok((Seq::new(regions), place))
}

#[tactic(auto, using(wt_line::proofs::Ended::goes_on_is_wrong), unfolding(crate::specs::TorusText::plain_torus_form, wt_text::specs::Readers::whole, wt_text::specs::Readers::value_behind, wt_text::specs::Readers::both))]
fn plain_torus_row(line: &[u8]) -> Result<(RawBox, u32), LineFault>
    ensures { ReadsLine (λ x. (x.0, x.1)) result (plain_torus_form (tokens line.now)) }
{
    let rest = word("torus", Rest::new(line))?;
    let Some((sides, rest)) = sides(rest) else {
        return Err(LineFault::Wrong);
    };
    let (count, rest) = number_to(MAX_REGIONS as u32, What::Regions, rest)?;
    line_end(rest)?;
    Ok((sides?, count?))
}

/// A torus text from a place on: `torus GA GB Ga Gb n`, and n regions, and the place behind it.
#[tactic(auto, unfolding(crate::specs::TorusText::plain_torus_part, wt_text::specs::Readers::one_line, wt_text::specs::Readers::part_by, wt_text::specs::Readers::seen_as))]
pub fn torus_at(alloc: Global, place: Place<'_>) -> Result<(RawTorus, Place<'_>), TextFault>
    ensures { ReadsPlace plain_torus_part result place.entry }
{
    let (line, next) = next_line(place)?;
    let (sides, count) = placed(plain_torus_row(line), place.number)?;
    let (regions, place) = regions_at(alloc, count, next)?;
    Ok((RawTorus { sides, regions }, place))
}
