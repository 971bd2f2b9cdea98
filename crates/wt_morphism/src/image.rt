// What tiles stand for along an axis.

use wt_grid::Image;
use wt_seq::Seq;
use wt_tile::Axis;

/// The images of the tiles 0, 1, .. along an axis: a substitution that gives each tile one or two
/// (Labbé, "Substitutive structure of Jeandel-Rao aperiodic tilings").
#[derive(Debug, Drop)]
pub struct Morphism {
    /// The axis along which images are laid.
    pub axis: Axis,
    /// The image of tile i at place i.
    pub table: Seq<Image>,
}
