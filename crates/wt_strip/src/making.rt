//! All layers of a width up to an empty one, or the least pattern of as many rows.
ghost use Rattle.std.specs.Prelude.{◌≡◌, ◌≤◌, ◌<◌, ◌-◌, length, IfOk, MatchResult};
ghost use Rattle.wt_grid.specs.Shifts.{fill};
ghost use Rattle.wt_strip.specs.Layers.{IsInLayer};
ghost use Rattle.wt_strip.specs.Listed.{rows_in, IsLayerOrMore};
ghost use Rattle.wt_strip.specs.Stripped.{AreFilled, IsLeastPattern, IsStripped, IsStripEnd, HasNoFault};
ghost use Rattle.wt_strip.specs.declared.making.StripEnd.TheVariants as spec;

use crate::layers::Layers;
use crate::least::least_pattern;
use crate::limits::{MAX_COLUMNS, MAX_LAYERS, MAX_ROWS};
use crate::upon::{first_layer, next_layer};
use std::alloc::{AllocError, AllocFailed, Global};
use wt_mask::Sides;
use wt_pattern::Pattern;
use wt_seq::Seq;
use wt_tile::SetRef;

/// What the layers of a width show.
#[derive(Drop)]
pub enum Stripped {
    /// No rectangle of this width and of as many rows as these are layers can be filled: the exact layers, the last one
    /// empty.
    Empty(Layers),
    /// The least valid pattern of the width and of as many rows as layers were asked for.
    Filled(Pattern),
}

/// Why the layers of a width aren't known.
#[derive(Clone, Copy, Debug, PartialEq, Eq)]
pub enum StripEnd {
    /// The layers have more than `MAX_ROWS` rows.
    TooManyRows {
        /// The first layer with which they have, counted from 1.
        layer: usize,
    },
    /// No memory was left.
    OutOfMemory,
}

impl From<AllocError> for StripEnd {
    ghost from_gives = { λ _ e. e ≡ spec.OutOfMemory };

    fn from(_: AllocError) -> Self {
        StripEnd::OutOfMemory
    }
}

impl<T: Drop> From<AllocFailed<T>> for StripEnd {
    ghost from_gives = { λ _ e. e ≡ spec.OutOfMemory };

    fn from(_: AllocFailed<T>) -> Self {
        StripEnd::OutOfMemory
    }
}

/// The layer above those that are made, or None where it has more than `room` rows.
fn layer_upon(
    alloc: Global,
    sides: &Sides<'_>,
    w: usize,
    made: &[Seq<u16>],
    room: usize,
) -> Result<Option<Vec<u16>>, AllocError>
    requires wide { 1 ≤ w }
    requires narrow { w ≤ MAX_COLUMNS }
    requires made { AreFilled sides.now.tiles.now w made.now }
    ensures { IfOk result (IsLayerOrMore (IsInLayer sides.now.tiles.now w (length made.now)) w room) }
{
    if made.is_empty() {
        return first_layer(alloc, sides, w, room);
    }
    next_layer(alloc, sides, w, made[made.len() - 1].as_slice(), room)
}

/// The layers of valid rows up to the first that is empty or would be too large, or the least pattern.
fn strip_tiles(
    alloc: Global,
    sides: &Sides<'_>,
    w: usize,
    limit: usize,
) -> Result<Stripped, StripEnd>
    requires wide { 1 ≤ w }
    requires narrow { w ≤ MAX_COLUMNS }
    requires high { 1 ≤ limit }
    requires low { limit ≤ MAX_LAYERS }
    ensures { MatchResult result (IsStripped sides.now.tiles.now w limit) (IsStripEnd sides.now.tiles.now w limit) }
{
    let mut made: Vec<Seq<u16>> = Vec::new(alloc);
    let mut room = MAX_ROWS;
    for n in 0..limit {
        let Some(cells) = layer_upon(alloc, sides, w, &made, room)? else {
            return Err(StripEnd::TooManyRows { layer: n + 1 });
        };
        let rows = cells.len() / w;
        if rows > room {
            return Err(StripEnd::TooManyRows { layer: n + 1 });
        }
        made.push(Seq::new(cells))?;
        if rows == 0 {
            return Ok(Stripped::Empty(Layers {
                width: w,
                layers: Seq::new(made),
            }));
        }
        room -= rows;
    }
    let pattern = least_pattern(alloc, sides, w, &made)?;
    Ok(Stripped::Filled(pattern))
}

/// The layers of valid rows of a width, from the lowest up: all of them up to the first that is empty, where one of the
/// first `limit` is; else the least valid pattern of that width and of `limit` rows, as a list in reading order.
/// `TooManyRows` is answered exactly at the first layer with which they have more than `MAX_ROWS` rows; `OutOfMemory` only
/// where memory runs out. What it gives as empty `check_strip` accepts.
#[tactic(auto, using(wt_tile::proofs::Sizes::few_tiles))]
pub fn strip(
    alloc: Global,
    set: SetRef<'_>,
    width: usize,
    limit: usize,
) -> Result<Stripped, StripEnd>
    requires wide { 1 ≤ width }
    requires narrow { width ≤ MAX_COLUMNS }
    requires high { 1 ≤ limit }
    requires low { limit ≤ MAX_LAYERS }
    ensures answer { MatchResult result (IsStripped set.entry.list.now.tiles width limit) (IsStripEnd set.entry.list.now.tiles width limit) }
    ensures accepted { IfOk result (λ found. HasNoFault set.entry.list.now.tiles found) }
{
    strip_tiles(alloc, &Sides::new(set.tiles()), width, limit)
}
