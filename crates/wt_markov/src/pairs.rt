//! The pairs of regions that can follow each other, and the first whose labels don't match.
ghost use Rattle.std.specs.Prelude.{◌≡◌, ◌<◌, ◌≤◌, Some, true, length, MatchResult};
ghost use Rattle.wt_markov.specs.Faults as faults;
ghost use Rattle.wt_markov.specs.Turns.{IsTurns};
ghost use Rattle.wt_grid.specs.Answers.{GivesUnless};
ghost use Rattle.wt_markov.specs.Faults.{CountsFollowers};

use crate::MarkovFault;
use crate::turns::{Turns, can_follow, moved_fit, turns_on};
use wt_grid::Axis;
use wt_tile::{Tile, is_match};
use wt_torus::{Labelled, MAX_REGIONS, Partition};

// The region with this number.
pub(crate) fn region(p: &Partition, i: usize) -> &Labelled
    requires { i < length p.now.regions }
    ensures { result.now ≡ faults.region_at p.now i }
{
    &p.regions.as_slice()[i]
}

fn answer(axis: Axis, i: usize, j: usize, follows: bool, matched: bool) -> Result<bool, MarkovFault>
    ensures { GivesUnless result follows (faults.unmatched axis i j follows matched) }
{
    if follows && !matched {
        Err(MarkovFault::Pair { axis, i, j })
    } else {
        Ok(follows)
    }
}

// Whether region i can be followed by region j, or the fault of this pair.
fn pair_at(
    tiles: &[Tile],
    axis: Axis,
    turns: &Turns,
    p: &Partition,
    i: usize,
    j: usize,
) -> Result<bool, MarkovFault>
    requires turns { IsTurns axis p.now.torus turns.now }
    requires fit { faults.zones_fit axis p.now.torus ≡ true }
    requires i { i < length p.now.regions }
    requires j { j < length p.now.regions }
    ensures { GivesUnless result (faults.can_follow_at axis p.now i j) (faults.pair_fault_at tiles.now axis p.now i j) }
{
    let first = region(p, i);
    let second = region(p, j);
    if !moved_fit(turns, second) {
        return Err(MarkovFault::TooLarge);
    }
    let follows = can_follow(turns, first, second);
    let matched = is_match(tiles, axis, first.label, second.label);
    answer(axis, i, j, follows, matched)
}

// How many regions can follow region i, or the first fault of its pairs.
#[tactic(auto, using(wt_grid::proofs::First::first_more, crate::proofs::Counted::followers_more))]
fn row_of(
    tiles: &[Tile],
    axis: Axis,
    turns: &Turns,
    p: &Partition,
    i: usize,
) -> Result<usize, MarkovFault>
    requires turns { IsTurns axis p.now.torus turns.now }
    requires fit { faults.zones_fit axis p.now.torus ≡ true }
    requires i { i < length p.now.regions }
    ensures { MatchResult result
        (CountsFollowers tiles.now axis p.now i) (λ e. faults.pair_row tiles.now axis p.now i ≡ Some e) }
{
    let mut count = 0;
    for j in 0..p.regions.as_slice().len() {
        if pair_at(tiles, axis, turns, p, i, j)? {
            count += 1;
        }
    }
    Ok(count)
}

// How many pairs of regions can follow each other along the axis, or the first fault of a pair.
#[tactic(auto, using(wt_grid::proofs::First::first_more, crate::proofs::Counted::pairs_more))]
fn pairs_in(tiles: &[Tile], axis: Axis, turns: &Turns, p: &Partition) -> Result<usize, MarkovFault>
    requires turns { IsTurns axis p.now.torus turns.now }
    requires fit { faults.zones_fit axis p.now.torus ≡ true }
    requires few { length p.now.regions ≤ MAX_REGIONS }
    ensures { GivesUnless result (faults.pair_count axis p.now) (faults.pair_fault tiles.now axis p.now) }
{
    let mut count = 0;
    for i in 0..p.regions.as_slice().len() {
        count += row_of(tiles, axis, turns, p, i)?;
    }
    Ok(count)
}

/// The same where a number of the zones may be out of limit.
#[tactic(auto, using(crate::proofs::Counted::unfit, crate::proofs::Counted::no_regions))]
pub(crate) fn pairs_along(tiles: &[Tile], axis: Axis, p: &Partition) -> Result<usize, MarkovFault>
    requires few { length p.now.regions ≤ MAX_REGIONS }
    ensures { GivesUnless result (faults.pair_count axis p.now) (faults.pair_fault tiles.now axis p.now) }
{
    match turns_on(axis, &p.torus) {
        Ok(turns) => pairs_in(tiles, axis, &turns, p),
        Err(_) => {
            if p.regions.as_slice().is_empty() {
                Ok(0)
            } else {
                Err(MarkovFault::TooLarge)
            }
        }
    }
}
