//! Half-planes moved back along an axis.
ghost use Rattle.std.specs.Prelude.{◌≡◌, true};
ghost use Rattle.std.specs.List.{list_all};
ghost use Rattle.wt_plane.specs.HalfPlanes.{reduced_half};
ghost use Rattle.wt_induce.specs.Faults.{is_small_half, moved_back};
ghost use Rattle.wt_induce.specs.Zones.{moved_along};

use wt_golden::Golden;
use wt_grid::Axis;
use wt_induce::moved;
use wt_plane::HalfPlane;

/// Whether all of them, moved back, are within the limit.
pub(crate) fn all_fit(axis: Axis, change: Golden, planes: &[HalfPlane]) -> bool
    ensures { result ≡ list_all is_small_half (moved_back axis change planes.now) }
{
    for h in planes {
        if moved(axis, change, h).is_err() {
            return false;
        }
    }
    true
}

/// The half-plane moved back, which is known to be within the limit.
pub(crate) fn moved_within(axis: Axis, change: Golden, h: &HalfPlane) -> HalfPlane
    requires { is_small_half (reduced_half (moved_along axis change h.now)) ≡ true }
    ensures { result ≡ reduced_half (moved_along axis change h.now) }
{
    match moved(axis, change, h) {
        Ok(g) => g,
        Err(_) => *h,
    }
}
