// Tiles, and lists of them with the names of their colours.
ghost use Rattle.std.specs.Prelude.{◌≡◌, IfOk};

use crate::Name;
use std::alloc::{AllocError, Global};
use wt_grid::Axis;
use wt_seq::Seq;

/// A Wang tile: a unit square with a colour on each edge. East and west colours belong to axis 1,
/// north and south colours to axis 2, and the two are separate.
#[derive(Clone, Copy, Debug, PartialEq, Eq)]
pub struct Tile {
    /// The number of the right edge's colour, on axis 1.
    pub east: u16,
    /// The number of the top edge's colour, on axis 2.
    pub north: u16,
    /// The number of the left edge's colour, on axis 1.
    pub west: u16,
    /// The number of the bottom edge's colour, on axis 2.
    pub south: u16,
}

/// Tiles, and the names of the colours of each axis: a colour's number is the place of its name.
/// Any such list; one without a fault is a tile set.
#[derive(Debug, Drop)]
pub struct TileList {
    /// The tiles: tile i at place i.
    pub tiles: Seq<Tile>,
    /// The names of the colours of axis 1.
    pub names1: Seq<Name>,
    /// The names of the colours of axis 2.
    pub names2: Seq<Name>,
}

impl TileList {
    /// An equal list. Fails only where memory runs out.
    pub fn copy(&self, alloc: Global) -> Result<TileList, AllocError>
        ensures { IfOk result (λ copied. copied ≡ self.now) }
    {
        let tiles = self.tiles.copy(alloc)?;
        let names1 = self.names1.copy(alloc)?;
        let names2 = self.names2.copy(alloc)?;
        Ok(TileList {
            tiles,
            names1,
            names2,
        })
    }
}

/// Why a list is no tile set. The first that holds is the list's fault.
#[derive(Clone, Copy, Debug, PartialEq, Eq)]
pub enum SetFault {
    /// There is no tile.
    Empty,
    /// There are more than 256 tiles.
    TooMany,
    /// The first tile with a colour that isn't numbered by first coming, or has no name.
    NoColour {
        /// The number of this tile.
        tile: u16,
    },
    /// Two names of this axis are equal, or there are more of them than colours.
    Names {
        /// The axis of the names; axis 1 comes first.
        axis: Axis,
    },
    /// Two tiles are equal: the least second of such tiles, and the least first for it.
    Repeated {
        /// Where the tile stands first.
        first: usize,
        /// Where it stands again.
        second: usize,
    },
}
