//! The half-planes of the box of a torus.
ghost use Rattle.std.specs.List.{list_all};
ghost use Rattle.wt_induce.specs.Faults.{is_small_half};
ghost use Rattle.wt_markov.specs.Follow as follow;
ghost use Rattle.wt_grid.specs.Answers.{GivesWhere};

use wt_golden::TooLarge;
use wt_grid::Axis;
use wt_induce::{between, zero};
use wt_plane::HalfPlane;
use wt_torus::Torus;

/// The four half-planes of the box, or that a number is out of limit.
#[tactic(auto, using(crate::proofs::Counted::box_unfit))]
pub(crate) fn box_of(torus: &Torus) -> Result<[HalfPlane; 4], TooLarge>
    ensures { GivesWhere result (follow.box torus.now) (list_all is_small_half) }
{
    let [x0, x1] = between(Axis::One, zero(), torus.width())?;
    let [y0, y1] = between(Axis::Two, zero(), torus.height())?;
    Ok([x0, x1, y0, y1])
}
