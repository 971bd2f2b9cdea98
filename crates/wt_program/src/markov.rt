// Partitions of a torus whose codes are valid patterns: over a set that comes in, or over the fine set of a step, which then
// takes the codes apart.
ghost use Rattle.std.specs.Prelude.{◌≡◌, ◌≤◌, IfOk, length, slice_get, string_bytes};
ghost use Rattle.wt_line.specs.Faults.{ReadsText};
ghost use Rattle.wt_markov.specs.Faults.{markov_fault, pair_count};
ghost use Rattle.wt_markov.specs.WindowFaults.{window_fault};
ghost use Rattle.wt_pattern.specs.Plain.{IsPlain};
ghost use Rattle.wt_text.specs.Words.{value_from};
ghost use Rattle.wt_session.specs.Torus.{torus_fault_text};
ghost use Rattle.wt_tile.specs.Sets.{set_fault};
ghost use Rattle.wt_program.specs.SetTexts.{IsListReply};
ghost use Rattle.wt_program.specs.Checks as checks;
ghost use Rattle.wt_program.specs.Markovs as spec;

use crate::accepted::judged;
use crate::fault::fault_reply;
use crate::number::StepNumber;
use crate::reply::{Reply, answered_lines, limit, refused, refused_line};
use crate::set_text::{set_at, set_refusal};
use crate::step::{refused_step, step_at};
use std::alloc::{AllocError, Global};
use wt_cert::read_chain;
use wt_chain::{Accepted, RawChain};
use wt_grid::{Axis, axis_number};
use wt_line::{Place, TextFault, text_end};
use wt_markov::{MarkovFault, WindowFault, marker_window, markov};
use wt_script::{RawTorus, torus_at};
use wt_session::{PartitionFault, partition};
use wt_step::{LinkRef, StepRef};
use wt_tile::{SetRef, TileList};
use wt_torus::{MAX_REGIONS, Partition};

/// How many pairs of regions can follow each other along axis 1, and along axis 2.
type Pairs = (usize, usize);

/// A tile set, which may have no tile or repeat one, and then a torus, to the end of the bytes.
#[tactic(auto, using(wt_line::proofs::Ended::more_fails, crate::proofs::Tori::part_few), unfolding(wt_text::specs::Readers::whole_text, wt_text::specs::Readers::both_parts))]
fn read_with_set(alloc: Global, bytes: &[u8]) -> Result<(TileList, RawTorus), TextFault>
    ensures read { ReadsText (λ x. (x.0, x.1)) result (spec.set_and_torus bytes.now) }
    ensures plain { IfOk result (λ x. IsPlain (set_fault x.0)) }
    ensures few { IfOk result (λ x. length x.1.regions ≤ MAX_REGIONS) }
{
    let (list, place) = set_at(alloc, Place::new(bytes))?;
    let (torus, place) = torus_at(alloc, place)?;
    text_end(place)?;
    Ok((list, torus))
}

/// A certificate and then a torus, to the end of the bytes.
#[tactic(auto, using(wt_line::proofs::Ended::more_fails, crate::proofs::Tori::part_few), unfolding(wt_text::specs::Readers::whole_text, wt_text::specs::Readers::both_parts))]
fn read_with_chain(alloc: Global, bytes: &[u8]) -> Result<(RawChain, RawTorus), TextFault>
    ensures read { ReadsText (λ x. (x.0, x.1)) result (spec.chain_and_torus bytes.now) }
    ensures few { IfOk result (λ x. length x.1.regions ≤ MAX_REGIONS) }
{
    let (chain, place) = read_chain(alloc, Place::new(bytes))?;
    let (torus, place) = torus_at(alloc, place)?;
    text_end(place)?;
    Ok((chain, torus))
}

/// The line of the pairs.
fn pairs_line(alloc: Global, pairs: Pairs) -> Result<String, AllocError>
    ensures { IfOk result (λ text. string_bytes text ≡ spec.pairs_text pairs.0 pairs.1) }
{
    let (first, second) = pairs;
    format!(in alloc; "pairs {first} {second}\n")
}

/// The same, and that the markers are the labels beyond the window.
fn window_lines(alloc: Global, pairs: Pairs) -> Result<String, AllocError>
    ensures { IfOk result (λ text. string_bytes text ≡ spec.window_text pairs.0 pairs.1) }
{
    let (first, second) = pairs;
    format!(in alloc; "pairs {first} {second}\nwindow\n")
}

/// The line of regions whose labels don't match.
fn pair_line(alloc: Global, axis: Axis, i: usize, j: usize) -> Result<String, AllocError>
    ensures { IfOk result (λ text. string_bytes text ≡ spec.pair_text axis i j) }
{
    let axis = axis_number(axis);
    format!(in alloc; "refused pair axis {axis} regions {i} {j}\n")
}

/// The line of a region, with a word for what is wrong.
fn region_line(alloc: Global, region: usize, wrong: &str) -> Result<String, AllocError>
    ensures { IfOk result (λ text. string_bytes text ≡ spec.region_text region wrong.now) }
{
    format!(in alloc; "refused region {region} {wrong}\n")
}

/// The line of a marker that labels no region beyond the window.
fn marker_line(alloc: Global, marker: u16) -> Result<String, AllocError>
    ensures { IfOk result (λ text. string_bytes text ≡ spec.marker_text marker) }
{
    format!(in alloc; "refused marker {marker}\n")
}

/// The refusal of a partition over a set by its first fault.
fn pairs_refusal(alloc: Global, fault: MarkovFault) -> Result<Reply, AllocError>
    ensures { IfOk result (λ reply. reply ≡ spec.pairs_refusal fault) }
{
    match fault {
        MarkovFault::Tile { region } => Ok(refused_line(region_line(alloc, region, "tile")?)),
        MarkovFault::TooLarge => limit(alloc, b"limit golden\n"),
        MarkovFault::Pair { axis, i, j } => Ok(refused_line(pair_line(alloc, axis, i, j)?)),
    }
}

/// The refusal of a partition for a step by the first fault of its window.
fn window_refusal(alloc: Global, fault: WindowFault) -> Result<Reply, AllocError>
    ensures { IfOk result (λ reply. reply ≡ spec.window_refusal fault) }
{
    match fault {
        WindowFault::Side => refused(alloc, b"refused side\n"),
        WindowFault::Half => refused(alloc, b"refused half\n"),
        WindowFault::TooLarge => limit(alloc, b"limit golden\n"),
        WindowFault::Outside { region } => Ok(refused_line(region_line(alloc, region, "outside")?)),
        WindowFault::Inside { region } => Ok(refused_line(region_line(alloc, region, "inside")?)),
        WindowFault::Nowhere { marker } => Ok(refused_line(marker_line(alloc, marker)?)),
    }
}

/// The reply to a partition over a set.
fn pairs_reply(alloc: Global, set: SetRef<'_>, p: &Partition) -> Result<Reply, AllocError>
    requires few { length p.now.regions ≤ MAX_REGIONS }
    ensures { IfOk result (λ reply. reply ≡ spec.pairs_reply p.now (markov_fault set.entry.list.now.tiles p.now)) }
{
    match markov(set, p) {
        Ok(pairs) => Ok(answered_lines(pairs_line(alloc, pairs)?)),
        Err(fault) => pairs_refusal(alloc, fault),
    }
}

/// The reply to a partition with these pairs, whose labels match, for a step.
fn window_reply(
    alloc: Global,
    step: StepRef<'_>,
    p: &Partition,
    pairs: Pairs,
) -> Result<Reply, AllocError>
    requires pairs { pairs ≡ (pair_count Axis.One p.now, pair_count Axis.Two p.now) }
    ensures { IfOk result (λ reply. reply ≡ spec.window_reply p.now (window_fault step.entry.raw.now p.now)) }
{
    match marker_window(step, p) {
        Ok(()) => Ok(answered_lines(window_lines(alloc, pairs)?)),
        Err(fault) => window_refusal(alloc, fault),
    }
}

/// The reply to a partition for a marker step.
fn marked_reply(alloc: Global, step: StepRef<'_>, p: &Partition) -> Result<Reply, AllocError>
    requires few { length p.now.regions ≤ MAX_REGIONS }
    ensures { IfOk result (λ reply. reply ≡ spec.marked_reply step.entry.raw.now p.now (markov_fault step.entry.raw.now.fine.tiles p.now)) }
{
    match markov(LinkRef::Marker(step).fine(), p) {
        Ok(pairs) => window_reply(alloc, step, p, pairs),
        Err(fault) => pairs_refusal(alloc, fault),
    }
}

/// The reply to a partition for a step of a good chain.
fn link_reply(
    alloc: Global,
    step: StepNumber<'_>,
    chain: &Accepted,
    p: &Partition,
) -> Result<Reply, AllocError>
    requires few { length p.now.regions ≤ MAX_REGIONS }
    ensures { IfOk result (λ reply. reply ≡ spec.link_reply step.entry.text.now p.now (slice_get chain.now.steps (value_from 0 step.entry.text.now))) }
{
    match step_at(chain, step) {
        Some(LinkRef::Marker(marker)) => marked_reply(alloc, marker, p),
        Some(LinkRef::Restrict(_)) | None => refused_step(alloc, step),
    }
}

/// The line of numbers that make no half-plane.
fn plane_line(alloc: Global, region: usize, plane: usize) -> Result<String, AllocError>
    ensures { IfOk result (λ text. string_bytes text ≡ torus_fault_text (PartitionFault.Plane region plane)) }
{
    format!(in alloc; "refused plane {region} {plane}\n")
}

/// The refusal of a torus that makes no partition.
fn torus_refusal(alloc: Global, fault: PartitionFault) -> Result<Reply, AllocError>
    ensures { IfOk result (λ reply. reply ≡ Reply.Refused (torus_fault_text fault)) }
{
    match fault {
        PartitionFault::Torus => refused(alloc, b"refused torus\n"),
        PartitionFault::Plane { region, plane } => {
            Ok(refused_line(plane_line(alloc, region, plane)?))
        }
    }
}

/// The reply to a torus over a set.
#[tactic(auto, using(crate::proofs::Sound::few_regions))]
fn codes_reply(alloc: Global, set: SetRef<'_>, torus: &RawTorus) -> Result<Reply, AllocError>
    requires few { length torus.now.regions ≤ MAX_REGIONS }
    ensures { IfOk result (λ reply. reply ≡ spec.codes_reply torus.now set.entry.list.now.tiles) }
{
    match partition(alloc, &torus.sides, torus.regions.as_slice())? {
        Ok(p) => pairs_reply(alloc, set, &p),
        Err(fault) => torus_refusal(alloc, fault),
    }
}

/// The reply to a list of tiles and to a torus.
#[tactic(auto, using(crate::proofs::SetReplies::plain_fault, crate::proofs::SetReplies::answered_list, crate::proofs::SetReplies::refused_list))]
fn list_reply(alloc: Global, list: &TileList, torus: &RawTorus) -> Result<Reply, AllocError>
    requires plain { IsPlain (set_fault list.now) }
    requires few { length torus.now.regions ≤ MAX_REGIONS }
    ensures { IfOk result (IsListReply (λ ts reply. reply ≡ spec.codes_reply torus.now ts) list.now (set_fault list.now)) }
{
    match SetRef::new(list) {
        Ok(set) => codes_reply(alloc, set, torus),
        Err(fault) => set_refusal(alloc, fault),
    }
}

/// The reply of `markov` to the bytes of a tile set and of a torus.
pub fn markov_reply(alloc: Global, bytes: &[u8]) -> Result<Reply, AllocError>
    ensures { IfOk result (spec.IsMarkovReply bytes.now) }
{
    match read_with_set(alloc, bytes) {
        Ok((list, torus)) => list_reply(alloc, &list, &torus),
        Err(fault) => fault_reply(alloc, fault),
    }
}

/// The reply to a torus for a step of a good chain.
#[tactic(auto, using(crate::proofs::Sound::few_regions))]
fn markers_reply(
    alloc: Global,
    step: StepNumber<'_>,
    chain: &Accepted,
    torus: &RawTorus,
) -> Result<Reply, AllocError>
    requires few { length torus.now.regions ≤ MAX_REGIONS }
    ensures { IfOk result (λ reply. reply ≡ spec.markers_reply step.entry.text.now torus.now chain.now) }
{
    match partition(alloc, &torus.sides, torus.regions.as_slice())? {
        Ok(p) => link_reply(alloc, step, chain, &p),
        Err(fault) => torus_refusal(alloc, fault),
    }
}

/// The reply to a torus for a step of any chain.
fn chain_reply(
    alloc: Global,
    step: StepNumber<'_>,
    chain: RawChain,
    torus: &RawTorus,
) -> Result<Reply, AllocError>
    requires few { length torus.now.regions ≤ MAX_REGIONS }
    ensures { IfOk result (λ reply. reply ≡ checks.reply_or (spec.markers_reply step.entry.text.now torus.now) (checks.judged chain)) }
{
    match judged(alloc, chain)? {
        Ok(chain) => markers_reply(alloc, step, &chain, torus),
        Err(refusal) => Ok(refusal),
    }
}

/// The reply of `markov K` to the bytes of a certificate and of a torus.
pub fn markov_step_reply(
    alloc: Global,
    step: StepNumber<'_>,
    bytes: &[u8],
) -> Result<Reply, AllocError>
    ensures { IfOk result (λ reply. reply ≡ spec.markov_step_reply step.entry.text.now bytes.now) }
{
    match read_with_chain(alloc, bytes) {
        Ok((chain, torus)) => chain_reply(alloc, step, chain, &torus),
        Err(fault) => fault_reply(alloc, fault),
    }
}
