//! The two zones of an axis, and whether a region can be followed by another.
ghost use Rattle.std.specs.Prelude.{◌≡◌, ◌||◌, ◌&&◌, true, false, MatchResult};
ghost use Rattle.std.specs.List.{list_all};
ghost use Rattle.wt_induce.specs.Faults.{is_small_half};
ghost use Rattle.wt_markov.specs.Faults.{zones_fit};
ghost use Rattle.wt_markov.specs.Turns.{IsTurns, planes_on, planes_back, follows_on, follows_back};

use crate::boxes::box_of;
use crate::meets::meets;
use crate::moved::all_fit;
use wt_golden::{Golden, TooLarge};
use wt_grid::Axis;
use wt_induce::{between, difference, length_of, move_of, zero};
use wt_plane::HalfPlane;
use wt_torus::{Labelled, Torus};

/// The half-planes of the box with each zone of an axis, and by how much a turn moves each.
#[derive(Clone, Copy)]
pub(crate) struct Turns {
    /// The axis.
    pub axis: Axis,
    /// The move of the zone that a turn moves on.
    pub on: Golden,
    /// The move of the zone that a turn takes back by the length.
    pub back: Golden,
    /// The box and the zone that a turn moves on.
    pub low: [HalfPlane; 6],
    /// The box and the zone that a turn takes back.
    pub high: [HalfPlane; 6],
}

/// The zones of an axis, or that a half-plane of the box or of one of them is out of limit.
#[tactic(auto, using(crate::proofs::Limits::rest_out, crate::proofs::Limits::back_out))]
pub(crate) fn turns_on(axis: Axis, torus: &Torus) -> Result<Turns, TooLarge>
    ensures { MatchResult result
        (λ z. IsTurns axis torus.now z × (zones_fit axis torus.now ≡ true))
        (λ _. zones_fit axis torus.now ≡ false) }
{
    let length = length_of(axis, torus);
    let on = move_of(axis, torus);
    let rest = difference(length, on)?;
    let back = difference(on, length)?;
    let [x0, x1, y0, y1] = box_of(torus)?;
    let [low0, low1] = between(axis, zero(), rest)?;
    let [high0, high1] = between(axis, rest, length)?;
    Ok(Turns {
        axis,
        on,
        back,
        low: [x0, x1, y0, y1, low0, low1],
        high: [x0, x1, y0, y1, high0, high1],
    })
}

/// Whether the half-planes of region q moved back, by the move of either zone, are within the limit.
pub(crate) fn moved_fit(turns: &Turns, q: &Labelled) -> bool
    ensures { result ≡ (list_all is_small_half (planes_on turns.now q.now) && list_all is_small_half (planes_back turns.now q.now)) }
{
    let planes = q.region.planes.as_slice();
    all_fit(turns.axis, turns.on, planes) && all_fit(turns.axis, turns.back, planes)
}

/// Whether region p can be followed by region q.
pub(crate) fn can_follow(turns: &Turns, p: &Labelled, q: &Labelled) -> bool
    requires on { list_all is_small_half (planes_on turns.now q.now) ≡ true }
    requires back { list_all is_small_half (planes_back turns.now q.now) ≡ true }
    ensures { result ≡ (follows_on turns.now p.now q.now || follows_back turns.now p.now q.now) }
{
    let first = p.region.planes.as_slice();
    let second = q.region.planes.as_slice();
    meets(&turns.low, first, turns.axis, turns.on, second)
        || meets(&turns.high, first, turns.axis, turns.back, second)
}
