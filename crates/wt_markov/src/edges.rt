//! The two sides of the edge of a window, and whether a region lies beyond the edge or inside it.
ghost use Rattle.std.specs.Prelude.{◌≡◌, ◌++◌, true, false, MatchResult};
ghost use Rattle.wt_induce.specs.Zones.{frame_on};
ghost use Rattle.wt_markov.specs.Follow as follow;
ghost use Rattle.wt_markov.specs.Turns.{IsEdges};
ghost use Rattle.wt_markov.specs.WindowFaults.{edges_fit};

use crate::boxes::box_of;
use crate::meets::meets;
use wt_golden::{Golden, TooLarge};
use wt_grid::Axis;
use wt_induce::{beneath, beyond, difference, is_less_than_half, length_of, move_of, zero};
use wt_plane::HalfPlane;
use wt_torus::{Labelled, Torus};

/// The half-planes of the box with each side of the edge of a window.
#[derive(Clone, Copy)]
pub(crate) struct Edges {
    /// The box beyond the edge.
    pub beyond: [HalfPlane; 5],
    /// The box inside the edge.
    pub inside: [HalfPlane; 5],
}

// The size of the window of an axis. Where it is out of limit, so is a half-plane of its edge.
#[tactic(auto, using(crate::proofs::Limits::size_is, crate::proofs::Limits::size_out))]
fn window_size(axis: Axis, torus: &Torus) -> Result<Golden, TooLarge>
    ensures { MatchResult result
        (λ f. f ≡ (frame_on axis torus.now).size)
        (λ _. edges_fit axis torus.now ≡ false) }
{
    let length = length_of(axis, torus);
    let step = move_of(axis, torus);
    if !is_less_than_half(length, step) {
        return Ok(step);
    }
    let size = difference(length, step)?;
    Ok(size)
}

/// Both sides of the edge of an axis's window, or that a number is out of limit.
pub(crate) fn edges_on(axis: Axis, torus: &Torus) -> Result<Edges, TooLarge>
    ensures { MatchResult result
        (λ e. IsEdges axis torus.now e × (edges_fit axis torus.now ≡ true))
        (λ _. edges_fit axis torus.now ≡ false) }
{
    let size = window_size(axis, torus)?;
    let [x0, x1, y0, y1] = box_of(torus)?;
    let out = beyond(axis, size)?;
    let within = beneath(axis, size)?;
    Ok(Edges {
        beyond: [x0, x1, y0, y1, out],
        inside: [x0, x1, y0, y1, within],
    })
}

/// Whether a region meets the half-planes of one side.
pub(crate) fn meets_side(side: &[HalfPlane], q: &Labelled) -> bool
    ensures { result ≡ follow.meets (q.now.region.planes ++ side.now) }
{
    meets(q.region.planes.as_slice(), side, Axis::One, zero(), &[])
}
