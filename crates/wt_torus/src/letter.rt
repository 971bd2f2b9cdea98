//! What a partition says of a point.

/// The letter of a point.
#[derive(Clone, Copy, Debug, PartialEq, Eq)]
pub enum Letter {
    /// The regions that hold the point have this label, and no other.
    One(u16),
    /// The point isn't inside the box, or no region holds it.
    Unplaced,
    /// Regions with different labels hold it.
    Doubled,
}
