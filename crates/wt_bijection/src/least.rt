// The least renaming of one tile set onto another.
ghost use Rattle.std.specs.Prelude.{◌≡◌, ◌<◌, ◌≤◌, ◌-◌, ℕ, length, take, slice_index, is_none, None, Some, IfOk, option_map, true, false};
ghost use Rattle.wt_bijection.specs.Renaming.{renaming_fault};
ghost use Rattle.wt_bijection.specs.Least.{least_behind, least_renaming};
ghost use Rattle.wt_bijection.specs.Kept.{AreKept, AreSmall};
ghost use Rattle.wt_bijection.specs.Labels as spec;

use crate::labels::{
    Labels, Sums, apart_labels, label_sum, marked, rounds, rounds_apart, rounds_wanted,
};
use crate::renaming::wrong_number;
use std::alloc::{AllocError, Global};
use wt_grid::MAX_TILES;
use wt_tile::{SetRef, Tile};

#[tactic(auto, unfolding(crate::specs::Renaming::renaming_fault))]
fn is_renaming(from: &[Tile], to: &[Tile], list: &[u16]) -> bool
    requires few { length from.now ≤ MAX_TILES }
    requires alike { length from.now ≡ length to.now }
    requires whole { length from.now ≡ length list.now }
    ensures { result ≡ is_none (renaming_fault from.now to.now list.now) }
{
    wrong_number(from, to, list).is_none()
}

/// The labels of tiles once tile t is told apart.
fn labels_with(tiles: &[Tile], labels: &Labels, t: u16, count: u16, sums: &mut Sums) -> Labels
    requires few { length tiles.now ≤ MAX_TILES }
    requires inside { t < MAX_TILES }
    ensures value { result ≡ spec.rounds tiles.now count (spec.marked labels.now t) }
    ensures long { length result ≡ MAX_TILES }
{
    rounds(tiles, count, &marked(labels, t), sums)
}

/// Puts behind the first i numbers of the list those that make it the first renaming which begins so, and tells whether there is one.
fn seek(
    from: &[Tile],
    to: &[Tile],
    own: &Labels,
    other: &Labels,
    sums: &mut Sums,
    list: &mut [u16],
    i: usize,
) -> bool
    requires few { length from.now ≤ MAX_TILES }
    requires alike { length from.now ≡ length to.now }
    requires whole { length from.now ≡ length list.old }
    requires begun { i ≤ length list.old }
    requires small { AreSmall from.now × AreSmall to.now }
    requires own { length own.now ≡ MAX_TILES }
    requires other { length other.now ≡ MAX_TILES }
    requires kept { AreKept from.now to.now (take i list.old) own.now other.now }
    ensures same { take i list.new ≡ take i list.old }
    ensures found { result ≡ true → least_behind from.now to.now (length list.old - i) (take i list.old) ≡ Some list.new }
    ensures none { result ≡ false → least_behind from.now to.now (length list.old - i) (take i list.old) ≡ None }
{
    if i >= list.len() {
        return is_renaming(from, to, list);
    }
    let at = i as u16;
    let first = marked(own, at);
    let count = rounds_wanted(from, &first, sums);
    let next = rounds(from, count, &first, sums);
    let wanted = label_sum(&next, from.len());
    for t in 0..to.len() as u16 {
        if own[i] != other[usize::from(t)] {
            continue;
        }
        let partner = labels_with(to, other, t, count, sums);
        if label_sum(&partner, to.len()) != wanted {
            continue;
        }
        list[i] = t;
        if seek(from, to, &next, &partner, sums, list, i + 1) {
            return true;
        }
    }
    false
}

/// The least renaming of one set onto the other, as lists of numbers are ordered, or none exactly where there is none. Number i of it is the partner of tile i.
/// The search goes through the tiles in order and tries partners in ascending order. Labels that each renaming has to keep pass over partners in vain.
pub fn equivalent(
    alloc: Global,
    from: SetRef<'_>,
    to: SetRef<'_>,
) -> Result<Option<Vec<u16>>, AllocError>
    ensures { IfOk result (λ found. option_map (λ list. list.items) found ≡ least_renaming from.entry.list.now.tiles to.entry.list.now.tiles) }
{
    let from = from.tiles();
    let to = to.tiles();
    if from.len() != to.len() {
        return Ok(None);
    }
    let mut sums = Sums::new();
    let plain = [0u64; MAX_TILES];
    let count = rounds_wanted(from, &plain, &mut sums);
    let own = rounds(from, count, &plain, &mut sums);
    let other = rounds(to, count, &plain, &mut sums);
    if label_sum(&own, from.len()) != label_sum(&other, to.len()) {
        return Ok(None);
    }
    let apart = rounds_apart(from, &own, &mut sums);
    let own = apart_labels(from, apart, &own, &mut sums);
    let other = apart_labels(to, apart, &other, &mut sums);
    if label_sum(&own, from.len()) != label_sum(&other, to.len()) {
        return Ok(None);
    }
    let mut list = vec![in alloc; 0u16; from.len()]?;
    if seek(from, to, &own, &other, &mut sums, &mut list, 0) {
        Ok(Some(list))
    } else {
        Ok(None)
    }
}
