//! Whether half-planes meet: no three of them, repeats allowed, clash.
ghost use Rattle.std.specs.Prelude.{◌≡◌};
ghost use Rattle.wt_plane.specs.Regions as regions;
ghost use Rattle.wt_induce.specs.Induced as induced;

use wt_plane::{HalfPlane, clash_with};

fn clash_with_two(f: &HalfPlane, planes: &[HalfPlane]) -> bool
    ensures { result ≡ regions.clash_with_two f.now planes.now }
{
    for i in 0..planes.len() {
        if clash_with(f, &planes[i], &planes[i..]) {
            return true;
        }
    }
    false
}

/// Whether three of the half-planes, repeats allowed, have no common point.
pub(crate) fn some_clash(planes: &[HalfPlane]) -> bool
    ensures { result ≡ induced.some_clash planes.now }
{
    for i in 0..planes.len() {
        if clash_with_two(&planes[i], &planes[i..]) {
            return true;
        }
    }
    false
}
