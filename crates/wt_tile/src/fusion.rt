// Two neighbouring tiles as one.
ghost use Rattle.std.specs.Prelude.{◌≡◌, IsTrue};
ghost use Rattle.wt_tile.specs.Fusion.{fused};
ghost use Rattle.wt_tile.specs.Matching.{fits};

use crate::{Axis, Tile};

/// The edge of a fused tile: one colour, or two in a row. A pair is a colour of its own, different from every
/// single colour.
#[derive(Clone, Copy, Debug, PartialEq, Eq, Hash)]
pub enum Edge {
    /// This colour alone.
    One(u16),
    /// The first colour, and the second right of it or above it.
    Two(u16, u16),
}

/// The four edges of a fused tile.
#[derive(Clone, Copy, Debug, PartialEq, Eq)]
pub struct Fused {
    /// The right edge.
    pub east: Edge,
    /// The top edge.
    pub north: Edge,
    /// The left edge.
    pub west: Edge,
    /// The bottom edge.
    pub south: Edge,
}

/// The fusion of u with v behind it along the axis, which match there: along axis 1 v stands to the right of u,
/// along axis 2 above it. The edges where they meet vanish, and each two edges that come to lie in a row
/// make a pair (Labbé, "Substitutive structure of Jeandel-Rao aperiodic tilings"). Takes no memory.
pub fn fuse(axis: Axis, u: Tile, v: Tile) -> Fused
    requires { IsTrue (fits axis u v) }
    ensures { result ≡ fused axis u v }
{
    match axis {
        Axis::One => Fused {
            east: Edge::One(v.east),
            north: Edge::Two(u.north, v.north),
            west: Edge::One(u.west),
            south: Edge::Two(u.south, v.south),
        },
        Axis::Two => Fused {
            east: Edge::Two(u.east, v.east),
            north: Edge::One(v.north),
            west: Edge::Two(u.west, v.west),
            south: Edge::One(u.south),
        },
    }
}
