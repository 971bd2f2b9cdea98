// The tests of the pairs of tiles. They go by the first tile, then by the second. A row of pairs that are allowed
// where they match is one comparison of masks; asked one by one are the pairs that differ, and the pairs of a row
// with a fault. The refutations are walked beside: they are read where they stand, and never searched.
ghost use Rattle.std.specs.Prelude.{◌≡◌, ℕ, List, ◌+◌, ◌-◌, ◌^◌, ◌<◌, ◌≤◌, None, Some, MatchResult, length, true, is_some, option_map};
ghost use Rattle.std.specs.Bool.{OnTrue, OnFalse};
ghost use Rattle.wt_tile.specs.declared.tile.Tile.{Tile};
ghost use Rattle.wt_tile.specs.Matching.{matches};
ghost use Rattle.wt_lane.specs.Masks.{mask_bit};
ghost use Rattle.wt_mask.specs.Masks.{IsRow, may_stand};
ghost use Rattle.wt_step.specs.Words as words;
ghost use Rattle.wt_step.specs.Faults.{IsShaped};
ghost use Rattle.wt_step.specs.Faults as faults;
ghost use Rattle.wt_step.specs.Walk.{IsAtPlace, IsBehind, IsOdd, refuted_place, rest_fault};

use crate::shape::count_tiles;
use crate::{RawStep, StepFault};
use wt_grid::MAX_TILES;
use wt_mask::{Rows, Sides, Way, differ_into, has_bit, next_bit};
use wt_refute::{Refuted, check_tree_in, entry_before, is_entry};
use wt_tile::{Axis, is_match};

/// Where the refutations of a step stand at a pair of tiles: there they name the pair, or nowhere.
#[derive(Clone, Copy)]
struct Places {
    /// How many refutations come before that of the pair, for each radius from 0 to the step's.
    refuted: [usize; 5],
}

/// The place of the first refutation that isn't before those of a radius and an axis, sought from a place on
/// that isn't behind it.
fn first_refuted(raw: &RawStep, axis: Axis, radius: u8, from: usize) -> usize
    requires { from ≤ refuted_place raw.now axis 0 0 radius }
    ensures { result ≡ refuted_place raw.now axis 0 0 radius }
{
    let entries = raw.refuted.as_slice();
    let mut place = from;
    while place < entries.len() && entry_before(radius, axis, 0, 0, &entries[place]) {
        place += 1;
    }
    place
}

/// The places at the pair of tile 0 and tile 0.
fn first_places(raw: &RawStep, axis: Axis) -> Places
    requires { IsShaped raw.now }
    ensures { IsAtPlace raw.now axis 0 0 result }
{
    let mut refuted = [0usize; 5];
    let mut place = 0usize;
    for radius in 0..raw.radius + 1 {
        place = first_refuted(raw, axis, radius, place);
        refuted[usize::from(radius)] = place;
    }
    Places { refuted }
}

/// Whether the pair is refuted at a radius, read at its place.
fn is_refuted_at(raw: &RawStep, axis: Axis, a: u16, b: u16, radius: u8, place: usize) -> bool
    requires shaped { IsShaped raw.now }
    requires placed { place ≡ refuted_place raw.now axis a b radius }
    ensures value { result ≡ is_some (words.entry_at raw.now axis a b radius) }
    ensures below { OnTrue result (place < 2 ^ 64 - 1) }
{
    let entries = raw.refuted.as_slice();
    place < entries.len() && is_entry(radius, axis, a, b, &entries[place])
}

/// The refutation of the pair at a radius, read at its place.
fn entry_at(raw: &RawStep, axis: Axis, a: u16, b: u16, radius: u8, place: usize) -> Option<&Refuted>
    requires shaped { IsShaped raw.now }
    requires placed { place ≡ refuted_place raw.now axis a b radius }
    ensures { option_map (λ entry. entry.now) result ≡ words.entry_at raw.now axis a b radius }
{
    if is_refuted_at(raw, axis, a, b, radius, place) {
        Some(&raw.refuted.as_slice()[place])
    } else {
        None
    }
}

/// The place in the refutations of a radius at the next pair of the row.
fn refuted_after(raw: &RawStep, axis: Axis, a: u16, b: u16, radius: u8, place: usize) -> usize
    requires shaped { IsShaped raw.now }
    requires placed { place ≡ refuted_place raw.now axis a b radius }
    ensures { result ≡ refuted_place raw.now axis a (b + 1) radius }
{
    if is_refuted_at(raw, axis, a, b, radius, place) {
        place + 1
    } else {
        place
    }
}

/// The places at the next pair of the row.
fn next_places(raw: &RawStep, axis: Axis, a: u16, b: u16, places: &Places) -> Places
    requires shaped { IsShaped raw.now }
    requires placed { IsAtPlace raw.now axis a b places.now }
    ensures { IsAtPlace raw.now axis a (b + 1) result }
{
    let mut refuted = [0usize; 5];
    for radius in 0..raw.radius + 1 {
        let i = usize::from(radius);
        refuted[i] = refuted_after(raw, axis, a, b, radius, places.refuted[i]);
    }
    Places { refuted }
}

/// Whether the pair is allowed, read in the row of its first tile.
#[tactic(auto, using(crate::proofs::Even::bit_told))]
fn is_allowed_in(raw: &RawStep, row: &[u64; 4], axis: Axis, a: u16, b: u16) -> bool
    requires row { IsRow (words.allowed raw.now axis) a row.now }
    requires second { b < MAX_TILES }
    ensures { result ≡ words.allows raw.now axis a b }
{
    has_bit(row, usize::from(b))
}

/// Whether the tiles of the pair match and aren't allowed.
fn is_barred_in(raw: &RawStep, row: &[u64; 4], axis: Axis, a: u16, b: u16) -> bool
    requires row { IsRow (words.allowed raw.now axis) a row.now }
    requires second { b < MAX_TILES }
    ensures { result ≡ words.is_barred raw.now axis a b }
{
    is_match(raw.fine.tiles.as_slice(), axis, a, b) && !is_allowed_in(raw, row, axis, a, b)
}

/// How often the refutations name the pair.
#[tactic(auto, using(wt_grid::proofs::First::count_more))]
fn times(raw: &RawStep, axis: Axis, a: u16, b: u16, places: &Places) -> usize
    requires shaped { IsShaped raw.now }
    requires placed { IsAtPlace raw.now axis a b places.now }
    ensures { result ≡ words.times raw.now axis a b }
{
    let mut count = 0usize;
    for radius in 0..raw.radius + 1 {
        if is_refuted_at(raw, axis, a, b, radius, places.refuted[usize::from(radius)]) {
            count += 1;
        }
    }
    count
}

fn is_named_well(raw: &RawStep, row: &[u64; 4], axis: Axis, a: u16, b: u16, places: &Places) -> bool
    requires shaped { IsShaped raw.now }
    requires row { IsRow (words.allowed raw.now axis) a row.now }
    requires second { b < MAX_TILES }
    requires placed { IsAtPlace raw.now axis a b places.now }
    ensures { result ≡ faults.is_named_well raw.now axis a b }
{
    let named = times(raw, axis, a, b, places);
    if is_barred_in(raw, row, axis, a, b) {
        named == 1
    } else {
        (is_match(raw.fine.tiles.as_slice(), axis, a, b) || !is_allowed_in(raw, row, axis, a, b))
            && named == 0
    }
}

#[tactic(auto, using(crate::proofs::Shaped::refuted_ascend))]
fn tree_fault_at(
    raw: &RawStep,
    sides: &Sides<'_>,
    axis: Axis,
    a: u16,
    b: u16,
    radius: u8,
    places: &Places,
) -> Option<StepFault>
    requires shaped { IsShaped raw.now }
    requires of_fine { sides.now.tiles.now ≡ raw.now.fine.tiles }
    requires placed { IsAtPlace raw.now axis a b places.now }
    requires small { radius ≤ raw.now.radius }
    ensures { result ≡ faults.tree_fault_at raw.now axis a b radius }
{
    match entry_at(raw, axis, a, b, radius, places.refuted[usize::from(radius)]) {
        None => None,
        Some(entry) => {
            let entries = raw.refuted.as_slice();
            match check_tree_in(sides, axis, a, b, radius, entries, &entry.tree) {
                Ok(()) => None,
                Err(fault) => Some(StepFault::Node {
                    axis,
                    a,
                    b,
                    node: fault.node,
                }),
            }
        }
    }
}

#[tactic(auto, using(wt_grid::proofs::First::first_more))]
fn trees_fault(
    raw: &RawStep,
    sides: &Sides<'_>,
    axis: Axis,
    a: u16,
    b: u16,
    places: &Places,
) -> Option<StepFault>
    requires shaped { IsShaped raw.now }
    requires of_fine { sides.now.tiles.now ≡ raw.now.fine.tiles }
    requires placed { IsAtPlace raw.now axis a b places.now }
    ensures { result ≡ faults.trees_fault raw.now axis a b }
{
    for radius in 0..raw.radius + 1 {
        if let Some(fault) = tree_fault_at(raw, sides, axis, a, b, radius, places) {
            return Some(fault);
        }
    }
    None
}

fn pair_fault(
    raw: &RawStep,
    sides: &Sides<'_>,
    row: &[u64; 4],
    axis: Axis,
    a: u16,
    b: u16,
    places: &Places,
) -> Option<StepFault>
    requires shaped { IsShaped raw.now }
    requires of_fine { sides.now.tiles.now ≡ raw.now.fine.tiles }
    requires row { IsRow (words.allowed raw.now axis) a row.now }
    requires second { b < MAX_TILES }
    requires placed { IsAtPlace raw.now axis a b places.now }
    ensures { result ≡ faults.pair_fault raw.now axis a b }
{
    if !is_named_well(raw, row, axis, a, b, places) {
        return Some(StepFault::Pair { axis, a, b });
    }
    if is_barred_in(raw, row, axis, a, b) {
        trees_fault(raw, sides, axis, a, b, places)
    } else {
        None
    }
}

/// The side of a tile on which the next one along an axis stands.
fn way(axis: Axis) -> Way
    ensures { (ts : List Tile) (t u : ℕ) → may_stand ts result t u ≡ matches ts axis t u }
{
    match axis {
        Axis::One => Way::Right,
        Axis::Two => Way::Up,
    }
}

/// The tiles that match a tile behind it and aren't allowed there, or the other way round.
fn odd_tiles(raw: &RawStep, sides: &Sides<'_>, row: &[u64; 4], axis: Axis, a: u16) -> [u64; 4]
    requires shaped { IsShaped raw.now }
    requires of_fine { sides.now.tiles.now ≡ raw.now.fine.tiles }
    requires row { IsRow (words.allowed raw.now axis) a row.now }
    ensures { IsOdd raw.now axis a result }
{
    let mut odd = sides.beside(way(axis), a);
    differ_into(&mut odd, row);
    odd
}

/// The first tile of a mask from a number on, or the number of tiles.
fn next_odd(odd: &[u64; 4], from: u16, tiles: u16) -> u16
    requires few { tiles ≤ MAX_TILES }
    requires within { from ≤ tiles }
    ensures least { from ≤ result }
    ensures most { result ≤ tiles }
    ensures even { (k : ℕ) → from ≤ k → k < result → mask_bit odd.now k ≡ 0 }
{
    match next_bit(odd, usize::from(from)) {
        None => tiles,
        Some(tile) => tiles.min(tile as u16),
    }
}

/// Whether the refutation at a place comes before those of a pair at a radius.
fn is_passed(raw: &RawStep, axis: Axis, a: u16, b: u16, radius: u8, place: usize) -> bool
    requires { place ≤ refuted_place raw.now axis a b radius }
    ensures { OnFalse result (place ≡ refuted_place raw.now axis a b radius) }
{
    let entries = raw.refuted.as_slice();
    place < entries.len() && entry_before(radius, axis, a, b, &entries[place])
}

/// Whether the places of an earlier pair are those of this one, since no refutation stands between.
fn are_places_at(raw: &RawStep, axis: Axis, a: u16, b: u16, places: &Places) -> bool
    requires shaped { IsShaped raw.now }
    requires behind { IsBehind raw.now axis a b places.now }
    ensures { OnTrue result (IsAtPlace raw.now axis a b places.now) }
{
    for radius in 0..raw.radius + 1 {
        if is_passed(raw, axis, a, b, radius, places.refuted[usize::from(radius)]) {
            return false;
        }
    }
    true
}

/// The first fault of a row of pairs from a second tile on, or the places at the next row.
#[tactic(auto, using(wt_grid::proofs::First::first_more))]
fn walk_row(
    raw: &RawStep,
    sides: &Sides<'_>,
    row: &[u64; 4],
    axis: Axis,
    a: u16,
    from: u16,
    at: Places,
) -> Result<Places, StepFault>
    requires shaped { IsShaped raw.now }
    requires of_fine { sides.now.tiles.now ≡ raw.now.fine.tiles }
    requires row { IsRow (words.allowed raw.now axis) a row.now }
    requires within { from ≤ length raw.now.fine.tiles }
    requires placed { IsAtPlace raw.now axis a from at }
    ensures { MatchResult result
        (λ next. (rest_fault raw.now axis a from ≡ None) × IsAtPlace raw.now axis (a + 1) 0 next)
        (λ fault. rest_fault raw.now axis a from ≡ Some fault) }
{
    let mut places = at;
    for b in from..count_tiles(raw) {
        if let Some(fault) = pair_fault(raw, sides, row, axis, a, b, &places) {
            return Err(fault);
        }
        places = next_places(raw, axis, a, b, &places);
    }
    Ok(places)
}

/// The first fault of a row of pairs, or the places at the next row.
fn row_fault(
    raw: &RawStep,
    sides: &Sides<'_>,
    row: &[u64; 4],
    axis: Axis,
    a: u16,
    at_row: Places,
) -> Result<Places, StepFault>
    requires shaped { IsShaped raw.now }
    requires of_fine { sides.now.tiles.now ≡ raw.now.fine.tiles }
    requires row { IsRow (words.allowed raw.now axis) a row.now }
    requires placed { IsAtPlace raw.now axis a 0 at_row }
    ensures { MatchResult result
        (λ next. (faults.row_fault raw.now axis a ≡ None) × IsAtPlace raw.now axis (a + 1) 0 next)
        (λ fault. faults.row_fault raw.now axis a ≡ Some fault) }
{
    let odd = odd_tiles(raw, sides, row, axis, a);
    let tiles = count_tiles(raw);
    let mut places = at_row;
    let mut from = 0u16;
    loop {
        let b = next_odd(&odd, from, tiles);
        if !are_places_at(raw, axis, a, b, &places) {
            return walk_row(raw, sides, row, axis, a, from, places);
        }
        if b == tiles {
            return Ok(places);
        }
        if let Some(fault) = pair_fault(raw, sides, row, axis, a, b, &places) {
            return Err(fault);
        }
        places = next_places(raw, axis, a, b, &places);
        from = b + 1;
    }
}

/// The first pair that is neither allowed, nor refuted, nor without a match.
#[tactic(auto, using(wt_grid::proofs::First::first_more))]
pub fn pairs_fault(
    raw: &RawStep,
    sides: &Sides<'_>,
    rows: &Rows<'_>,
    axis: Axis,
) -> Option<StepFault>
    requires shaped { IsShaped raw.now }
    requires of_fine { sides.now.tiles.now ≡ raw.now.fine.tiles }
    requires of_pairs { rows.now.pairs.now ≡ words.allowed raw.now axis }
    ensures { result ≡ faults.pairs_fault raw.now axis }
{
    let mut places = first_places(raw, axis);
    for a in 0..count_tiles(raw) {
        match row_fault(raw, sides, &rows.row(usize::from(a)), axis, a, places) {
            Ok(next) => places = next,
            Err(fault) => return Some(fault),
        }
    }
    None
}
