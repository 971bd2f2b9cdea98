//! Lists of layers, and what can be wrong with one.
use wt_seq::Seq;

/// Rows of one width in layers, the lowest layer first. The rows of a layer stand one after the other, each from
/// left to right.
#[derive(Drop)]
pub struct Layers {
    /// How many tiles a row has.
    pub width: usize,
    /// The cells of each layer.
    pub layers: Seq<Seq<u16>>,
}

/// The first fault of layers that aren't exact. Layers count from 1, rows from 0.
#[derive(Clone, Copy, Debug, PartialEq, Eq)]
pub enum StripFault {
    /// The width isn't 1 to `MAX_COLUMNS`, the number of layers isn't 1 to `MAX_LAYERS`, a layer isn't of whole rows,
    /// a number is no tile, there are more than `MAX_ROWS` rows, or not the last layer alone is empty.
    Shape,
    /// A row isn't greater, as a list, than the row before it.
    Order {
        /// The first layer with a fault.
        layer: usize,
        /// The first such row of this layer.
        row: usize,
    },
    /// A row isn't valid, or can't be laid upon a row of the layer below.
    Row {
        /// The first layer with a fault, whose rows ascend.
        layer: usize,
        /// The first such row of this layer.
        row: usize,
    },
    /// A valid row that can be laid upon a row of the layer below isn't listed; in the first layer, any valid row.
    Missing {
        /// The first layer with a fault, whose rows ascend and are all of the layer.
        layer: usize,
    },
}
