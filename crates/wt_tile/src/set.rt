// Tile sets: lists of tiles that have no fault.
ghost use Rattle.std.specs.Prelude.{◌≡◌, ◌<◌, ◌≤◌, length, None, Some, IfOk};
ghost use Rattle.wt_tile.specs.Sets as sets;
ghost use Rattle.wt_tile.specs.Matching as matching_words;
ghost use Rattle.wt_grid.specs.Answers.{TakesUnless, FailsBy};

use crate::checks::{are_apart, colour_fault, count_colours1, count_colours2, repeated};
use crate::matching::{is_match, tile_at};
use crate::{Axis, SetFault, Tile, TileList};
use std::alloc::{AllocError, Global};
use std::marker::Model;
use wt_grid::MAX_TILES;

/// A list that is known to be a tile set, borrowed: whoever holds one need not test it again.
#[derive(Clone, Copy, Debug)]
pub struct SetRef<'a> {
    /// The list of the set.
    pub list: &'a TileList,
    pub ghost good: { sets.set_fault list.now ≡ None },
}

/// A tile set: it owns a list that is one, and is seen by contracts as that list.
#[derive(Debug, Drop)]
pub struct TileSet {
    list: TileList,
}

impl Model for TileSet {
    ghost use Rattle.std.specs.Prelude.{◌≡◌, None};
    ghost use Rattle.wt_tile.specs.declared.tile.TileList.{TileList};
    ghost use Rattle.wt_tile.specs.Sets.{set_fault};

    ghost Value = { TileList };

    ghost view = { λ s. s.list };

    ghost invariant = { λ s. set_fault s.list ≡ None };
}

/// The first fault of a list, or None exactly where it is a tile set. Takes no memory.
#[tactic(auto, unfolding(crate::specs::Sets::set_fault))]
pub fn set_fault(list: &TileList) -> Option<SetFault>
    ensures { result ≡ sets.set_fault list.now }
{
    let tiles = list.tiles.as_slice();
    let names1 = list.names1.as_slice();
    let names2 = list.names2.as_slice();
    if tiles.is_empty() {
        return Some(SetFault::Empty);
    }
    if tiles.len() > MAX_TILES {
        return Some(SetFault::TooMany);
    }
    if let Some(tile) = colour_fault(tiles, names1.len(), names2.len()) {
        return Some(SetFault::NoColour { tile: tile as u16 });
    }
    if !are_apart(names1) || count_colours1(tiles) < names1.len() {
        return Some(SetFault::Names { axis: Axis::One });
    }
    if !are_apart(names2) || count_colours2(tiles) < names2.len() {
        return Some(SetFault::Names { axis: Axis::Two });
    }
    if let Some((first, second)) = repeated(tiles) {
        return Some(SetFault::Repeated { first, second });
    }
    None
}

impl<'a> SetRef<'a> {
    /// The list as a tile set, or its first fault. Takes no memory.
    pub fn new(list: &'a TileList) -> Result<SetRef<'a>, SetFault>
        ensures same { IfOk result (λ set. set.list.now ≡ list.now) }
        ensures fault { FailsBy result (sets.set_fault list.now) }
    {
        match set_fault(list) {
            None => Ok(SetRef { list }),
            Some(fault) => Err(fault),
        }
    }

    /// A list that is known to be a tile set. Takes no memory.
    pub fn of(list: &'a TileList) -> SetRef<'a>
        requires { sets.set_fault list.now ≡ None }
        ensures { result.list.now ≡ list.now }
    {
        SetRef { list }
    }

    /// An equal set of its own, names included. Fails only where memory runs out.
    pub fn copy(self, alloc: Global) -> Result<TileSet, AllocError>
        ensures { IfOk result (λ set. set ≡ self.entry.list.now) }
    {
        let list = self.list.copy(alloc)?;
        Ok(TileSet { list })
    }

    /// The list of the set.
    pub fn list(self) -> &'a TileList
        ensures value { result.now ≡ self.entry.list.now }
        ensures good { sets.set_fault result.now ≡ None }
    {
        self.list
    }

    /// The tiles of the set: 1 to 256 of them.
    #[tactic(auto, using(crate::proofs::Sizes::few_tiles))]
    pub fn tiles(self) -> &'a [Tile]
        ensures value { result.now ≡ self.entry.list.now.tiles }
        ensures some { 0 < length result.now }
        ensures few { length result.now ≤ MAX_TILES }
    {
        self.list.tiles.as_slice()
    }

    /// How many tiles the set has: 1 to 256.
    #[tactic(auto, using(crate::proofs::Sizes::few_tiles))]
    pub fn len(self) -> usize
        ensures value { result ≡ length self.entry.list.now.tiles }
        ensures some { 0 < result }
        ensures few { result ≤ MAX_TILES }
    {
        self.list.tiles.as_slice().len()
    }

    /// The tile with this number, which is in range.
    pub fn tile(self, i: u16) -> Tile
        requires { i < length self.list.now.tiles }
        ensures { result ≡ matching_words.tile_at self.entry.list.now.tiles i }
    {
        tile_at(self.list.tiles.as_slice(), i)
    }

    /// Whether b may stand next to a along the axis: to the right of it on axis 1, above it on axis 2. Both
    /// numbers are in range.
    pub fn matches(self, axis: Axis, a: u16, b: u16) -> bool
        requires first { a < length self.list.now.tiles }
        requires second { b < length self.list.now.tiles }
        ensures { result ≡ matching_words.matches self.entry.list.now.tiles axis a b }
    {
        is_match(self.list.tiles.as_slice(), axis, a, b)
    }
}

impl TileSet {
    /// The set of this list, or the list and its first fault. Takes no memory.
    pub fn new(list: TileList) -> Result<TileSet, (TileList, SetFault)>
        ensures { TakesUnless result list (sets.set_fault list) }
    {
        match set_fault(&list) {
            None => Ok(TileSet { list }),
            Some(fault) => Err((list, fault)),
        }
    }

    /// The set, borrowed.
    pub fn view(&self) -> SetRef<'_>
        ensures value { result.list.now ≡ self.now }
        ensures good { sets.set_fault self.now ≡ None }
    {
        SetRef { list: &self.list }
    }

    /// The list of the set.
    pub fn into_list(self) -> TileList
        ensures value { result ≡ self }
        ensures good { sets.set_fault result ≡ None }
    {
        self.list
    }
}
