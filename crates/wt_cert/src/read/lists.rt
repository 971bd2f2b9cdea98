// The lists of a block, each a count and n lines.
ghost use Rattle.std.specs.Prelude.{◌≡◌, ◌≤◌, IfOk};
ghost use Rattle.wt_line.specs.Faults.{ReadsText};
ghost use Rattle.wt_text.specs.Readers.{one_line, many_parts, left_by};
ghost use Rattle.wt_pattern.specs.TileRows.{no_state};
ghost use Rattle.wt_cert.specs.LineForms.{alone_form, count_form, allowed_form, pair_form, image_form};
ghost use Rattle.wt_cert.specs.Parts.{tiles_part, numbers_part, allowed_part, with_refuted, refuted_part, with_lost, lost_part, images_part};
ghost use Rattle.wt_cert.specs.Parts as spec;
ghost use Rattle.wt_line.specs.Left.{lines_left, ReadsPlace};

use crate::limits::MAX_NODES;
use crate::read::heads::{allowed_row, alone_row, count_row};
use crate::read::numbers::numbers_row;
use crate::read::rows::{image_row, lost_row, pair_row, refuted_row};
use std::alloc::Global;
use wt_chain::Version;
use wt_line::{Place, TextFault, What, next_line, placed};
use wt_morphism::Image;
use wt_pattern::tiles_at;
use wt_refute::Refuted;
use wt_seq::Seq;
use wt_step::Lost;
use wt_tile::TileList;

const MAX_TILES: u32 = 256;

const MAX_REFUTED: u32 = 131_072;

/// A line of one word.
#[tactic(auto, unfolding(wt_text::specs::Readers::one_line))]
pub fn alone_at<'a>(name: &str, place: Place<'a>) -> Result<Place<'a>, TextFault>
    ensures { ReadsText (λ p. (tt, lines_left p)) result (one_line (alone_form name.now) (lines_left place.entry)) }
{
    let (line, next) = next_line(place)?;
    placed(alone_row(name, line), place.number)?;
    Ok(next)
}

#[tactic(auto, unfolding(wt_text::specs::Readers::one_line))]
fn count_at<'a>(
    name: &str,
    most: u32,
    what: What,
    place: Place<'a>,
) -> Result<(u32, Place<'a>), TextFault>
    ensures within { IfOk result (λ x. x.0 ≤ most) }
    ensures read { ReadsPlace (one_line (count_form name.now most what)) result place.entry }
{
    let (line, next) = next_line(place)?;
    let count = placed(count_row(name, most, what, line), place.number)?;
    Ok((count, next))
}

#[tactic(auto, unfolding(wt_text::specs::Readers::one_line))]
fn allowed_count<'a>(axis: &str, place: Place<'a>) -> Result<(u32, Place<'a>), TextFault>
    ensures { ReadsPlace (one_line (allowed_form axis.now)) result place.entry }
{
    let (line, next) = next_line(place)?;
    let count = placed(allowed_row(axis, line), place.number)?;
    Ok((count, next))
}

#[tactic(auto, unfolding(wt_text::specs::Readers::one_line))]
fn pair_at(place: Place<'_>) -> Result<((u16, u16), Place<'_>), TextFault>
    ensures { ReadsPlace (one_line pair_form) result place.entry }
{
    let (line, next) = next_line(place)?;
    let pair = placed(pair_row(line), place.number)?;
    Ok((pair, next))
}

#[tactic(auto, unfolding(wt_text::specs::Readers::one_line))]
fn image_at(place: Place<'_>) -> Result<(Image, Place<'_>), TextFault>
    ensures { ReadsPlace (one_line image_form) result place.entry }
{
    let (line, next) = next_line(place)?;
    let image = placed(image_row(line), place.number)?;
    Ok((image, next))
}

#[tactic(auto, unfolding(crate::specs::Parts::refuted_row, wt_text::specs::Readers::one_line, wt_text::specs::Readers::seen_as))]
fn refuted_at<'a>(
    alloc: Global,
    version: Version,
    radius: u8,
    nodes: u32,
    place: Place<'a>,
) -> Result<(Refuted, u32, Place<'a>), TextFault>
    ensures read { ReadsText (λ x. (x.0, lines_left x.2)) result (spec.refuted_row version radius nodes (lines_left place.entry)) }
    ensures nodes { IfOk result (λ x. x.1 ≡ with_refuted nodes x.0) }
    ensures room { IfOk result (λ x. x.1 ≤ MAX_NODES) }
{
    let (line, next) = next_line(place)?;
    let (refuted, nodes) = placed(
        refuted_row(alloc, version, radius, nodes, line),
        place.number,
    )?;
    Ok((refuted, nodes, next))
}

#[tactic(auto, unfolding(crate::specs::Parts::lost_row, wt_text::specs::Readers::one_line, wt_text::specs::Readers::seen_as))]
fn lost_at<'a>(
    alloc: Global,
    nodes: u32,
    place: Place<'a>,
) -> Result<(Lost, u32, Place<'a>), TextFault>
    ensures read { ReadsText (λ x. (x.0, lines_left x.2)) result (spec.lost_row nodes (lines_left place.entry)) }
    ensures nodes { IfOk result (λ x. x.1 ≡ with_lost nodes x.0) }
    ensures room { IfOk result (λ x. x.1 ≤ MAX_NODES) }
{
    let (line, next) = next_line(place)?;
    let (lost, nodes) = placed(lost_row(alloc, nodes, line), place.number)?;
    Ok((lost, nodes, next))
}

/// `fine n` or `coarse n`, and n rows of names.
#[tactic(auto, unfolding(crate::specs::Parts::tiles_part, wt_text::specs::Readers::part_behind))]
pub fn tile_list_at<'a>(
    alloc: Global,
    name: &str,
    place: Place<'a>,
) -> Result<(TileList, Place<'a>), TextFault>
    ensures { ReadsPlace (tiles_part name.now) result place.entry }
{
    let (count, place) = count_at(name, MAX_TILES, What::Tiles, place)?;
    tiles_at(alloc, count as usize, place)
}

/// A word, a count, and n numbers in one line.
#[tactic(auto, unfolding(crate::specs::Parts::numbers_part, wt_text::specs::Readers::one_line))]
pub fn numbers_at<'a>(
    alloc: Global,
    name: &str,
    place: Place<'a>,
) -> Result<(Seq<u16>, Place<'a>), TextFault>
    ensures { ReadsPlace (numbers_part name.now) result place.entry }
{
    let (line, next) = next_line(place)?;
    let numbers = placed(numbers_row(alloc, name, line), place.number)?;
    Ok((Seq::new(numbers), next))
}

fn pairs_at(
    alloc: Global,
    count: u32,
    place: Place<'_>,
) -> Result<(Vec<(u16, u16)>, Place<'_>), TextFault>
    ensures { ReadsText (λ x. (x.0.items, lines_left x.1)) result (many_parts (λ s. one_line pair_form) no_state 0 count (lines_left place.entry)) }
{
    let mut pairs = Vec::new(alloc);
    let mut place = place;
    for _ in 0..count {
        let (pair, next) = pair_at(place)?;
        pairs.push(pair)?;
        place = next;
    }
    Ok((pairs, place))
}

/// `allowed 1 c` or `allowed 2 c`, and c pairs.
#[tactic(auto, unfolding(crate::specs::Parts::allowed_part, wt_text::specs::Readers::counted_parts))]
pub fn allowed_at<'a>(
    alloc: Global,
    axis: &str,
    place: Place<'a>,
) -> Result<(Seq<(u16, u16)>, Place<'a>), TextFault>
    ensures { ReadsPlace (allowed_part axis.now) result place.entry }
{
    let (count, place) = allowed_count(axis, place)?;
    let (pairs, place) = pairs_at(alloc, count, place)?;
    Ok((Seq::new(pairs), place))
}

fn image_list(
    alloc: Global,
    count: u32,
    place: Place<'_>,
) -> Result<(Vec<Image>, Place<'_>), TextFault>
    ensures { ReadsText (λ x. (x.0.items, lines_left x.1)) result (many_parts (λ s. one_line image_form) no_state 0 count (lines_left place.entry)) }
{
    let mut images = Vec::new(alloc);
    let mut place = place;
    for _ in 0..count {
        let (image, next) = image_at(place)?;
        images.push(image)?;
        place = next;
    }
    Ok((images, place))
}

/// `images c`, and c images.
#[tactic(auto, unfolding(crate::specs::Parts::images_part, wt_text::specs::Readers::counted_parts))]
pub fn images_at(alloc: Global, place: Place<'_>) -> Result<(Seq<Image>, Place<'_>), TextFault>
    ensures { ReadsPlace images_part result place.entry }
{
    let (count, place) = count_at("images", MAX_TILES, What::Tiles, place)?;
    let (images, place) = image_list(alloc, count, place)?;
    Ok((Seq::new(images), place))
}

fn refuted_rows<'a>(
    alloc: Global,
    version: Version,
    radius: u8,
    nodes: u32,
    count: u32,
    place: Place<'a>,
) -> Result<(Vec<Refuted>, u32, Place<'a>), TextFault>
    requires { nodes ≤ MAX_NODES }
    ensures read { ReadsText (λ x. (x.0.items, lines_left x.2)) result (many_parts (spec.refuted_row version radius) with_refuted nodes count (lines_left place.entry)) }
    ensures nodes { IfOk result (λ x. x.1 ≡ left_by with_refuted nodes x.0.items) }
    ensures room { IfOk result (λ x. x.1 ≤ MAX_NODES) }
{
    let mut list = Vec::new(alloc);
    let mut total = nodes;
    let mut place = place;
    for _ in 0..count {
        let (refuted, grown, next) = refuted_at(alloc, version, radius, total, place)?;
        list.push(refuted)?;
        total = grown;
        place = next;
    }
    Ok((list, total, place))
}

/// `refuted c`, and c refutations, with the nodes so far.
#[tactic(auto, unfolding(crate::specs::Parts::refuted_part, wt_text::specs::Readers::counted_parts))]
pub fn refuted_list<'a>(
    alloc: Global,
    version: Version,
    radius: u8,
    nodes: u32,
    place: Place<'a>,
) -> Result<(Seq<Refuted>, u32, Place<'a>), TextFault>
    requires { nodes ≤ MAX_NODES }
    ensures read { ReadsText (λ x. (x.0, lines_left x.2)) result (refuted_part version radius nodes (lines_left place.entry)) }
    ensures nodes { IfOk result (λ x. x.1 ≡ left_by with_refuted nodes x.0) }
    ensures room { IfOk result (λ x. x.1 ≤ MAX_NODES) }
{
    let (count, place) = count_at("refuted", MAX_REFUTED, What::Pairs, place)?;
    let (list, nodes, place) = refuted_rows(alloc, version, radius, nodes, count, place)?;
    Ok((Seq::new(list), nodes, place))
}

fn lost_rows<'a>(
    alloc: Global,
    nodes: u32,
    count: u32,
    place: Place<'a>,
) -> Result<(Vec<Lost>, u32, Place<'a>), TextFault>
    requires { nodes ≤ MAX_NODES }
    ensures read { ReadsText (λ x. (x.0.items, lines_left x.2)) result (many_parts spec.lost_row with_lost nodes count (lines_left place.entry)) }
    ensures nodes { IfOk result (λ x. x.1 ≡ left_by with_lost nodes x.0.items) }
    ensures room { IfOk result (λ x. x.1 ≤ MAX_NODES) }
{
    let mut list = Vec::new(alloc);
    let mut total = nodes;
    let mut place = place;
    for _ in 0..count {
        let (lost, grown, next) = lost_at(alloc, total, place)?;
        list.push(lost)?;
        total = grown;
        place = next;
    }
    Ok((list, total, place))
}

/// `lost c`, and c lost tiles, with the nodes so far.
#[tactic(auto, unfolding(crate::specs::Parts::lost_part, wt_text::specs::Readers::counted_parts))]
pub fn lost_list<'a>(
    alloc: Global,
    nodes: u32,
    place: Place<'a>,
) -> Result<(Seq<Lost>, u32, Place<'a>), TextFault>
    requires { nodes ≤ MAX_NODES }
    ensures read { ReadsText (λ x. (x.0, lines_left x.2)) result (lost_part nodes (lines_left place.entry)) }
    ensures nodes { IfOk result (λ x. x.1 ≡ left_by with_lost nodes x.0) }
    ensures room { IfOk result (λ x. x.1 ≤ MAX_NODES) }
{
    let (count, place) = count_at("lost", MAX_TILES, What::Tiles, place)?;
    let (list, nodes, place) = lost_rows(alloc, nodes, count, place)?;
    Ok((Seq::new(list), nodes, place))
}
