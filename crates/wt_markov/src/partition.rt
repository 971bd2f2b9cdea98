//! Whether the codes of a partition are valid patterns over a tile set.
ghost use Rattle.std.specs.Prelude.{◌≡◌, ◌<◌, ◌≤◌, None, Some, length, IfOk};
ghost use Rattle.wt_markov.specs.Faults as faults;
ghost use Rattle.wt_markov.specs.Markov as words;
ghost use Rattle.wt_grid.specs.Answers.{GivesUnless};

use crate::MarkovFault;
use crate::pairs::{pairs_along, region};
use wt_grid::Axis;
use wt_tile::{SetRef, Tile};
use wt_torus::{MAX_REGIONS, Partition};

fn tile_fault_at(tiles: &[Tile], p: &Partition, i: usize) -> Option<MarkovFault>
    requires { i < length p.now.regions }
    ensures { result ≡ faults.tile_fault_at tiles.now p.now i }
{
    if usize::from(region(p, i).label) < tiles.len() {
        None
    } else {
        Some(MarkovFault::Tile { region: i })
    }
}

#[tactic(auto, using(wt_grid::proofs::First::first_more))]
fn tile_fault(tiles: &[Tile], p: &Partition) -> Option<MarkovFault>
    ensures { result ≡ faults.tile_fault tiles.now p.now }
{
    for i in 0..p.regions.as_slice().len() {
        if let Some(fault) = tile_fault_at(tiles, p, i) {
            return Some(fault);
        }
    }
    None
}

#[tactic(auto, using(crate::proofs::Faultless::markov_without), unfolding(crate::specs::Faults::markov_fault))]
fn markov_of(tiles: &[Tile], p: &Partition) -> Result<(usize, usize), MarkovFault>
    requires few { length p.now.regions ≤ MAX_REGIONS }
    ensures { GivesUnless result (faults.pair_counts p.now) (faults.markov_fault tiles.now p.now) }
{
    if let Some(fault) = tile_fault(tiles, p) {
        return Err(fault);
    }
    let first = pairs_along(tiles, Axis::One, p)?;
    let second = pairs_along(tiles, Axis::Two, p)?;
    Ok((first, second))
}

/// How many pairs of regions can follow each other along axis 1 and along axis 2, where every label is a tile of
/// the set and the labels of each such pair match; or the first fault. Then every code of the partition is a
/// valid pattern over the set (`codes_are_valid`). Takes no memory. After Labbé, "Markov partitions for toral
/// Z²-rotations featuring Jeandel-Rao Wang shift and model sets".
#[tactic(auto, using(crate::proofs::Faultless::markov_without))]
pub fn markov(set: SetRef<'_>, p: &Partition) -> Result<(usize, usize), MarkovFault>
    requires few { length p.now.regions ≤ MAX_REGIONS }
    ensures exact { GivesUnless result (faults.pair_counts p.now) (faults.markov_fault set.entry.list.now.tiles p.now) }
    ensures holds { IfOk result (λ _. words.Markov set.entry.list.now.tiles p.now) }
{
    markov_of(set.list.tiles.as_slice(), p)
}
