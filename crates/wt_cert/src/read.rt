// A certificate, from its bytes to a chain.
ghost use Rattle.std.specs.Prelude.{◌≡◌, ◌≤◌, ◌+◌, IfOk};
ghost use Rattle.wt_line.specs.Faults.{ReadsText};
ghost use Rattle.wt_text.specs.Lines.{lines};
ghost use Rattle.wt_text.specs.Readers.{one_line, many_parts, left_by, whole_text};
ghost use Rattle.wt_cert.specs.LineForms.{version_form, steps_form, head_form, end_form};
ghost use Rattle.wt_cert.specs.Parts.{marker_part, restrict_part, block_part, with_link, next_step, steps_part, end_part, chain_part, cert_part};
ghost use Rattle.wt_cert.specs.Parts as spec;
ghost use Rattle.wt_cert.specs.Seen.{head_view, end_view, link_at_step};
ghost use Rattle.wt_line.specs.Left.{lines_left, ReadsPlace};

mod forms;
mod heads;
mod lists;
mod numbers;
mod rows;
mod trees;
mod words;

use crate::limits::MAX_NODES;
use crate::read::heads::{EndLine, Head, end_row, head_row, steps_row, version_row};
use crate::read::lists::{
    allowed_at, alone_at, images_at, lost_list, numbers_at, refuted_list, tile_list_at,
};
use std::alloc::Global;
use wt_chain::{End, RawChain, Version};
use wt_line::{Place, TextFault, next_line, placed, text_end};
use wt_seq::Seq;
use wt_step::{RawLink, RawRestrict, RawStep};
use wt_tile::{Axis, Side};

#[tactic(auto, unfolding(wt_text::specs::Readers::one_line))]
fn version_at(place: Place<'_>) -> Result<(Version, Place<'_>), TextFault>
    ensures { ReadsPlace (one_line version_form) result place.entry }
{
    let (line, next) = next_line(place)?;
    let version = placed(version_row(line), place.number)?;
    Ok((version, next))
}

#[tactic(auto, unfolding(wt_text::specs::Readers::one_line))]
fn step_count_at(place: Place<'_>) -> Result<(u32, Place<'_>), TextFault>
    ensures within { IfOk result (λ x. x.0 ≤ 32) }
    ensures read { ReadsPlace (one_line steps_form) result place.entry }
{
    let (line, next) = next_line(place)?;
    let count = placed(steps_row(line), place.number)?;
    Ok((count, next))
}

#[tactic(auto, unfolding(wt_text::specs::Readers::one_line))]
fn head_at(version: Version, k: u32, place: Place<'_>) -> Result<(Head, Place<'_>), TextFault>
    ensures { ReadsText (λ x. (head_view x.0, lines_left x.1)) result (one_line (head_form version k) (lines_left place.entry)) }
{
    let (line, next) = next_line(place)?;
    let head = placed(head_row(version, k, line), place.number)?;
    Ok((head, next))
}

#[tactic(auto, unfolding(wt_text::specs::Readers::one_line))]
fn end_line_at(place: Place<'_>) -> Result<(EndLine, Place<'_>), TextFault>
    ensures { ReadsText (λ x. (end_view x.0, lines_left x.1)) result (one_line end_form (lines_left place.entry)) }
{
    let (line, next) = next_line(place)?;
    let end = placed(end_row(line), place.number)?;
    Ok((end, next))
}

/// The block of a marker step behind its first line, with the nodes so far.
#[tactic(auto, unfolding(crate::specs::Parts::marker_part, wt_text::specs::Readers::both_parts, wt_text::specs::Readers::seen_as))]
fn marker_at<'a>(
    alloc: Global,
    version: Version,
    nodes: u32,
    head: (Axis, Side, u8),
    place: Place<'a>,
) -> Result<(RawLink, u32, Place<'a>), TextFault>
    requires { nodes ≤ MAX_NODES }
    ensures read { ReadsText (λ x. (x.0, lines_left x.2)) result (marker_part version nodes (head.0, (head.1, head.2)) (lines_left place.entry)) }
    ensures nodes { IfOk result (λ x. x.1 ≡ with_link nodes x.0) }
    ensures room { IfOk result (λ x. x.1 ≤ MAX_NODES) }
{
    let (axis, side, radius) = head;
    let (fine, place) = tile_list_at(alloc, "fine", place)?;
    let (coarse, place) = tile_list_at(alloc, "coarse", place)?;
    let (markers, place) = numbers_at(alloc, "markers", place)?;
    let (allowed1, place) = allowed_at(alloc, "1", place)?;
    let (allowed2, place) = allowed_at(alloc, "2", place)?;
    let (refuted, nodes, place) = refuted_list(alloc, version, radius, nodes, place)?;
    let (images, place) = images_at(alloc, place)?;
    let step = RawStep {
        axis,
        side,
        radius,
        fine,
        coarse,
        markers,
        allowed1,
        allowed2,
        refuted,
        images,
    };
    Ok((RawLink::Marker(step), nodes, place))
}

/// The block of a restrict step behind its first line, with the nodes so far.
#[tactic(auto, unfolding(crate::specs::Parts::restrict_part, wt_text::specs::Readers::both_parts, wt_text::specs::Readers::seen_as))]
fn restrict_at<'a>(
    alloc: Global,
    nodes: u32,
    radius: u8,
    place: Place<'a>,
) -> Result<(RawLink, u32, Place<'a>), TextFault>
    requires { nodes ≤ MAX_NODES }
    ensures read { ReadsText (λ x. (x.0, lines_left x.2)) result (restrict_part nodes radius (lines_left place.entry)) }
    ensures nodes { IfOk result (λ x. x.1 ≡ with_link nodes x.0) }
    ensures room { IfOk result (λ x. x.1 ≤ MAX_NODES) }
{
    let (fine, place) = tile_list_at(alloc, "fine", place)?;
    let (coarse, place) = tile_list_at(alloc, "coarse", place)?;
    let (kept, place) = numbers_at(alloc, "kept", place)?;
    let (lost, nodes, place) = lost_list(alloc, nodes, place)?;
    let step = RawRestrict {
        radius,
        fine,
        coarse,
        kept,
        lost,
    };
    Ok((RawLink::Restrict(step), nodes, place))
}

/// The block of step k, with the nodes so far.
#[tactic(auto, unfolding(crate::specs::Parts::link_part, wt_text::specs::Readers::part_behind))]
fn link_at<'a>(
    alloc: Global,
    version: Version,
    k: u32,
    nodes: u32,
    place: Place<'a>,
) -> Result<(RawLink, u32, Place<'a>), TextFault>
    requires { nodes ≤ MAX_NODES }
    ensures read { ReadsText (λ x. (x.0, lines_left x.2)) result (spec.link_part version k nodes (lines_left place.entry)) }
    ensures nodes { IfOk result (λ x. x.1 ≡ with_link nodes x.0) }
    ensures room { IfOk result (λ x. x.1 ≤ MAX_NODES) }
{
    let (head, place) = head_at(version, k, place)?;
    match head {
        Head::Marker { axis, side, radius } => {
            marker_at(alloc, version, nodes, (axis, side, radius), place)
        }
        Head::Restrict { radius } => restrict_at(alloc, nodes, radius, place),
    }
}

fn links_at<'a>(
    alloc: Global,
    version: Version,
    count: u32,
    place: Place<'a>,
) -> Result<(Vec<RawLink>, Place<'a>), TextFault>
    ensures { ReadsText (λ x. (x.0.items, lines_left x.1)) result (many_parts (link_at_step version) next_step (0, 0) count (lines_left place.entry)) }
{
    let mut links = Vec::new(alloc);
    let mut nodes = 0u32;
    let mut place = place;
    for k in 0..count {
        let (link, grown, next) = link_at(alloc, version, k, nodes, place)?;
        links.push(link)?;
        nodes = grown;
        place = next;
    }
    Ok((links, place))
}

/// `steps S`, and S blocks.
#[tactic(auto, unfolding(crate::specs::Parts::steps_part, wt_text::specs::Readers::counted_parts))]
fn steps_at<'a>(
    alloc: Global,
    version: Version,
    place: Place<'a>,
) -> Result<(Seq<RawLink>, Place<'a>), TextFault>
    ensures { ReadsPlace (steps_part version) result place.entry }
{
    let (count, place) = step_count_at(place)?;
    let (links, place) = links_at(alloc, version, count, place)?;
    Ok((Seq::new(links), place))
}

/// `open`, or `loop START E` and the renaming.
#[tactic(auto, unfolding(crate::specs::Parts::end_part, wt_text::specs::Readers::part_behind, wt_text::specs::Readers::seen_as))]
fn end_at(alloc: Global, place: Place<'_>) -> Result<(End, Place<'_>), TextFault>
    ensures { ReadsPlace end_part result place.entry }
{
    let (end, place) = end_line_at(place)?;
    match end {
        EndLine::Open => Ok((End::Open, place)),
        EndLine::Loop { start, expansion } => {
            let (renaming, place) = numbers_at(alloc, "renaming", place)?;
            let end = End::Loop {
                start,
                renaming,
                expansion,
            };
            Ok((end, place))
        }
    }
}

/// What stands behind the first line of a certificate of this version.
#[tactic(auto, unfolding(crate::specs::Parts::chain_part, wt_text::specs::Readers::both_parts, wt_text::specs::Readers::seen_as))]
fn chain_at<'a>(
    alloc: Global,
    version: Version,
    place: Place<'a>,
) -> Result<(RawChain, Place<'a>), TextFault>
    ensures { ReadsPlace (chain_part version) result place.entry }
{
    let (steps, place) = steps_at(alloc, version, place)?;
    let (end, place) = end_at(alloc, place)?;
    let place = alone_at("end", place)?;
    let chain = RawChain {
        version,
        steps,
        end,
    };
    Ok((chain, place))
}

/// The chain of a certificate, and the place behind its last line.
#[tactic(auto, unfolding(crate::specs::Parts::cert_part, wt_text::specs::Readers::part_behind))]
pub fn read_chain(alloc: Global, place: Place<'_>) -> Result<(RawChain, Place<'_>), TextFault>
    ensures { ReadsPlace cert_part result place.entry }
{
    let (version, place) = version_at(place)?;
    chain_at(alloc, version, place)
}

/// The chain whose certificate the bytes are, or their first fault.
#[tactic(auto, using(wt_line::proofs::Ended::more_fails), unfolding(wt_text::specs::Readers::whole_text))]
pub fn read_cert(alloc: Global, bytes: &[u8]) -> Result<RawChain, TextFault>
    ensures { ReadsText (λ x. x) result (whole_text cert_part (lines bytes.now)) }
{
    let (chain, place) = read_chain(alloc, Place::new(bytes))?;
    text_end(place)?;
    Ok(chain)
}
