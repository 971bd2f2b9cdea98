// How often each tile stands in what turns of a loop make of a tile.
ghost use Rattle.std.specs.Prelude.{ℕ, ◌*◌, ◌^◌, ◌<◌, ◌≤◌, length, slice_index, MatchBool, MatchOption, MatchResult, IfOk};
ghost use Rattle.wt_grid.specs.Traces.{piece_tiles};
ghost use Rattle.wt_chain.specs.Sets as sets;
ghost use Rattle.wt_chain.specs.Turns.{single};
ghost use Rattle.wt_check.specs.Powers.{AreAdded, IsAddedTooLarge, ArePushed, IsPushedTooLarge, tiles_under, tile_back, AreCounts, IsClosed, IsOneAdded, IsOneTooLarge, CountsThrough, CountsTurned};
ghost use Rattle.wt_check.specs.Census.{IsTooLarge, AreCountsAfter, IsWholeCensus, HasLoopFault, IsCensus, HasNoFault, HasFault};

use std::alloc::Global;
use wt_chain::{Accepted, End, first_count, image_of, origins, steps_from};
use wt_grid::MAX_TILES;
use wt_morphism::Image;
use wt_step::RawLink;

/// Adds n to the count of a tile, or tells that it would be 2^128 or more.
fn add(counts: &mut [u128; MAX_TILES], tile: u16, n: u128) -> bool
    ensures { MatchBool result (IsOneAdded counts.old counts.new n tile) (IsOneTooLarge counts.old n tile) }
{
    let at = usize::from(tile);
    if at >= 256 {
        return true;
    }
    let Some(sum) = counts[at].checked_add(n) else {
        return false;
    };
    counts[at] = sum;
    true
}

/// Adds n to the count of each tile of an image.
fn spread(counts: &mut [u128; MAX_TILES], image: Image, n: u128) -> bool
    ensures { MatchBool result
        (AreAdded counts.old counts.new n (piece_tiles image))
        (IsAddedTooLarge counts.old n (piece_tiles image)) }
{
    match image {
        Image::One(a) => add(counts, a, n),
        Image::Two(a, b) => add(counts, a, n) && add(counts, b, n),
    }
}

/// How often each tile stands in the image under a step, where each coarse tile stands as often as the counts
/// say.
fn push(link: &RawLink, counts: &[u128; MAX_TILES]) -> Option<[u128; MAX_TILES]>
    ensures { MatchOption result
        (IsPushedTooLarge (tiles_under link.now) counts.now)
        (ArePushed (tiles_under link.now) counts.now) }
{
    let mut next = [0u128; MAX_TILES];
    for t in 0..256u16 {
        if !spread(&mut next, image_of(link, t), counts[usize::from(t)]) {
            return None;
        }
    }
    Some(next)
}

/// How often each tile of a loop's last set stands there, once tiles are renamed back.
fn back(renaming: &[u16], counts: &[u128; MAX_TILES]) -> Option<[u128; MAX_TILES]>
    requires { length renaming.now ≤ MAX_TILES }
    ensures { MatchOption result
        (IsPushedTooLarge (tile_back renaming.now) counts.now)
        (ArePushed (tile_back renaming.now) counts.now) }
{
    let origins = origins(renaming);
    let mut next = [0u128; MAX_TILES];
    for t in 0..256usize {
        if !add(&mut next, origins[t], counts[t]) {
            return None;
        }
    }
    Some(next)
}

/// The same through several steps, the last step first.
fn push_through(links: &[RawLink], counts: &[u128; MAX_TILES]) -> Option<[u128; MAX_TILES]>
    ensures { CountsThrough links.now counts.now result }
{
    let [link, after @ ..] = links else {
        return Some(*counts);
    };
    match push_through(after, counts) {
        None => None,
        Some(coarse) => push(link, &coarse),
    }
}

/// How often each tile stands in what one turn of a loop makes of a rectangle.
fn turn_counts(
    links: &[RawLink],
    renaming: &[u16],
    counts: &[u128; MAX_TILES],
) -> Option<[u128; MAX_TILES]>
    requires { length renaming.now ≤ MAX_TILES }
    ensures { CountsTurned links.now renaming.now counts.now result }
{
    match back(renaming, counts) {
        None => None,
        Some(named) => push_through(links, &named),
    }
}

/// The counts of one tile alone.
fn one_tile(tile: u16) -> [u128; MAX_TILES]
    requires { tile < MAX_TILES }
    ensures { AreCounts result (single tile) }
{
    let mut counts = [0u128; MAX_TILES];
    counts[usize::from(tile)] = 1;
    counts
}

/// Each count is below 2^128, as its type says.
fn fits(counts: &[u128])
    ensures { (u : ℕ) → slice_index counts.now u < 2 ^ 128 }
{}

/// How often each tile stands in what n turns make of a tile, unless one stands 2^128 times or more
/// there or in what fewer turns make.
fn counts_after(
    links: &[RawLink],
    renaming: &[u16],
    turns: u32,
    tile: u16,
) -> Option<[u128; MAX_TILES]>
    requires closed { IsClosed links.now renaming.now }
    requires below { tile < sets.first_count links.now }
    ensures { MatchOption result (IsTooLarge links.now renaming.now turns tile)
        (AreCountsAfter links.now renaming.now turns tile) }
{
    let mut counts = one_tile(tile);
    for turn in 0..turns {
        match turn_counts(links, renaming, &counts) {
            None => return None,
            Some(next) => counts = next,
        }
    }
    fits(&counts);
    Some(counts)
}

/// The census of a tile under n turns of a loop.
fn loop_census(
    alloc: Global,
    links: &[RawLink],
    renaming: &[u16],
    turns: u32,
    tile: u16,
) -> Result<Vec<u128>, CensusFault>
    requires closed { IsClosed links.now renaming.now }
    ensures { MatchResult result
        (λ counts. IsWholeCensus links.now renaming.now turns tile counts.items)
        (HasLoopFault links.now renaming.now turns tile) }
{
    let count = first_count(links);
    if usize::from(tile) >= count {
        return Err(CensusFault::NoTile);
    }
    match counts_after(links, renaming, turns, tile) {
        None => Err(CensusFault::TooLarge),
        Some(counts) => match Vec::from_slice(alloc, &counts[..count]) {
            Ok(counts) => Ok(counts),
            Err(_) => Err(CensusFault::OutOfMemory),
        },
    }
}

/// Why there is no census.
#[derive(Clone, Copy, Debug, PartialEq, Eq)]
pub enum CensusFault {
    /// The chain isn't closed to a loop.
    OpenChain,
    /// The loop's first set has no tile of this number.
    NoTile,
    /// A count of some turn from 0 on is 2^128 or more.
    TooLarge,
    /// No memory was left.
    OutOfMemory,
}

/// How often each tile of the set of level `start`, the loop's first set, stands in what n turns of a
/// chain's loop make of one of them: a number for each tile, in their order. The chain has to be looped, then
/// the tile one of that set, and then each count of each turn from 0 on below 2^128; the first of these that
/// fails is told. Else memory alone can run out.
pub fn census(alloc: Global, c: &Accepted, turns: u32, tile: u16) -> Result<Vec<u128>, CensusFault>
    requires { turns ≤ 4096 }
    ensures counts { IfOk result (λ counts. IsCensus c.now.steps c.now.end turns tile counts.items) }
    ensures fault { MatchResult result (λ counts. HasNoFault c.now.steps c.now.end turns tile) (HasFault c.now.steps c.now.end turns tile) }
{
    let chain = c.raw();
    let End::Loop {
        start,
        renaming,
        expansion: _,
    } = &chain.end
    else {
        return Err(CensusFault::OpenChain);
    };
    let links = steps_from(chain.steps.as_slice(), *start);
    loop_census(alloc, links, renaming.as_slice(), turns, tile)
}
