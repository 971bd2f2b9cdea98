// Steps as they are read, and their faults.
use wt_morphism::Image;
use wt_refute::{Refuted, Tree};
use wt_seq::Seq;
use wt_tile::{Axis, SetFault, Side, TileList};

/// A marker step as it is read. Nothing is known of it. The notion is that of Labbé, "Substitutive
/// structure of Jeandel-Rao aperiodic tilings": lines of markers are joined to the lines before them (side
/// after) or behind them (side before).
#[derive(Drop)]
pub struct RawStep {
    /// The axis across which markers stand in lines: 1 for columns, 2 for rows.
    pub axis: Axis,
    /// On which side of its partner a marker stands.
    pub side: Side,
    /// How many lines a core loses on each side: at most 4 in a good step.
    pub radius: u8,
    /// The set that the step takes apart.
    pub fine: TileList,
    /// The set of the coarse patterns.
    pub coarse: TileList,
    /// Fine tiles, ascending.
    pub markers: Seq<u16>,
    /// The pairs of fine tiles that may stand side by side in a core along axis 1, ascending.
    pub allowed1: Seq<(u16, u16)>,
    /// The same along axis 2, the second above the first.
    pub allowed2: Seq<(u16, u16)>,
    /// The other matching pairs, each with the radius and the tree of its refutation.
    pub refuted: Seq<Refuted>,
    /// What the coarse tiles 0, 1, .. stand for.
    pub images: Seq<Image>,
}

/// A tile that stands in no core of a restrict step's radius, with the tree that shows it.
#[derive(Drop)]
pub struct Lost {
    /// A fine tile.
    pub tile: u16,
    /// A tree that refutes the square window of the step's radius round the tile.
    pub tree: Tree,
}

/// A restrict step as it is read: it keeps some tiles, and loses the others.
#[derive(Drop)]
pub struct RawRestrict {
    /// How many lines a core loses on each side: at most 4 in a good step.
    pub radius: u8,
    /// The set that the step takes over.
    pub fine: TileList,
    /// The set of the coarse patterns.
    pub coarse: TileList,
    /// The fine tiles that the coarse tiles 0, 1, .. stand for, ascending.
    pub kept: Seq<u16>,
    /// The other fine tiles, ascending.
    pub lost: Seq<Lost>,
}

/// A step of either kind as it is read.
#[derive(Drop)]
pub enum RawLink {
    /// A marker step.
    Marker(RawStep),
    /// A restrict step.
    Restrict(RawRestrict),
}

/// The first failing condition of a step, in the order in which they are tested. Pairs go by axis 1, then
/// axis 2, then by the first tile, then by the second.
#[derive(Clone, Copy, Debug, PartialEq, Eq)]
pub enum StepFault {
    /// The radius is above 4.
    Radius,
    /// The fine tiles are no tile set.
    Fine(SetFault),
    /// The coarse tiles are no tile set.
    Coarse(SetFault),
    /// The markers don't ascend, are out of range, none, or all tiles.
    Markers,
    /// The allowed pairs of this axis don't ascend or are out of range.
    Allowed(Axis),
    /// The refutations don't ascend or are out of range.
    RefutedList,
    /// The images aren't as many as the coarse tiles, or are out of range.
    Images,
    /// The kept tiles don't ascend, are out of range, or aren't as many as the coarse tiles.
    Kept,
    /// The lost tiles aren't the other fine tiles, ascending.
    LostList,
    /// An allowed pair that doesn't match, a refuted pair that is allowed or doesn't match or is refuted twice,
    /// or a matching pair that is neither.
    Pair {
        /// The axis along which b stands next to a.
        axis: Axis,
        /// The left or lower tile, a number of the fine set.
        a: u16,
        /// The right or upper tile.
        b: u16,
    },
    /// The tree of a refuted pair, whose first wrong node is this one.
    Node {
        /// The axis along which b stands next to a.
        axis: Axis,
        /// The left or lower tile, a number of the fine set.
        a: u16,
        /// The right or upper tile.
        b: u16,
        /// The node's number in preorder, from 0 at the root.
        node: usize,
    },
    /// The tree of a lost tile, whose first wrong node is this one.
    LostNode {
        /// The lost tile, a number of the fine set.
        tile: u16,
        /// The node's number in preorder, from 0 at the root.
        node: usize,
    },
    /// An allowed pair of the axis of two markers, or one of the other axis of a marker and a non-marker.
    Marker {
        /// The axis along which b stands next to a.
        axis: Axis,
        /// The left or lower tile, a number of the fine set.
        a: u16,
        /// The right or upper tile.
        b: u16,
    },
    /// An image that is neither a non-marker nor an allowed pair in the order of the side, or that came before.
    Image {
        /// The coarse tile whose image it is.
        index: usize,
    },
    /// A non-marker that an allowed pair makes an image, and that is none.
    MissingTile {
        /// The non-marker, a number of the fine set.
        tile: u16,
    },
    /// An allowed pair of a non-marker and a marker in the order of the side that is no image.
    MissingPair {
        /// The left or lower tile along the step's axis, a number of the fine set.
        a: u16,
        /// The right or upper tile.
        b: u16,
    },
    /// Coarse tiles that match otherwise than their images.
    Join {
        /// The axis along which b stands next to a.
        axis: Axis,
        /// The left or lower tile, a number of the coarse set.
        a: u16,
        /// The right or upper tile.
        b: u16,
    },
}
