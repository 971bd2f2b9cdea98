//! Regions: the points that lie in all of a list of half-planes.
ghost use Rattle.std.specs.Prelude.{◌≡◌, ◌↔◌, ◌++◌, ◌∷◌, [], IsTrue, IfOk, MatchResult, take, drop, ◌+◌};
ghost use Rattle.wt_golden.specs.Sizes.{IsBelow};
ghost use Rattle.wt_golden.specs.Wide.{number};
ghost use Rattle.wt_golden.specs.Whole as whole;
ghost use Rattle.wt_plane.specs.HalfPlanes.{Half, Spot, IsSpot, value, Holds, IsInside, AllDirected, opposite_half};
ghost use Rattle.wt_plane.specs.Regions.{holds_all, reduced};
ghost use Rattle.wt_plane.specs.Regions as regions;

use crate::apart::clash;
use crate::plane::HalfPlane;
use crate::point::Point;
use std::alloc::AllocError;
use wt_seq::Seq;

/// The points that lie in all of these half-planes. Where there is none, these are all points.
#[derive(Drop)]
pub struct Region {
    pub planes: Seq<HalfPlane>,
}

// Whether the point lies in the half-plane.
fn holds(h: &HalfPlane, z: &Point) -> bool
    ensures { result ≡ whole.is_positive (value h.now z.now) }
{
    let x = h.p().times(z.wide_x());
    let y = h.q().times(z.wide_y());
    let d = h.r().times(z.wide_d());
    x.plus(y).plus(d).is_positive()
}

fn all_hold(planes: &[HalfPlane], z: &Point) -> bool
    ensures { result ≡ holds_all planes.now z.now }
{
    for h in planes {
        if !holds(h, z) {
            return false;
        }
    }
    true
}

/// Whether the point lies in the region.
#[tactic(auto, using(crate::proofs::Inside::inside_of, crate::proofs::Inside::of_inside))]
pub fn contains(r: &Region, z: &Point) -> bool
    ensures test { result ≡ holds_all r.now.planes z.now }
    ensures exact { IsTrue result ↔ IsInside r.now.planes z.now }
{
    all_hold(r.planes.as_slice(), z)
}

/// The part of the region in a half-plane, which is put last. Fails only where memory runs out, and gives the region back.
#[tactic(auto, using(crate::proofs::Inside::clipped))]
pub fn clip(r: Region, h: HalfPlane) -> Result<Region, (Region, AllocError)>
    ensures exact { MatchResult result (λ part. part.planes ≡ r.planes ++ (h ∷ [])) (λ e. e.0 ≡ r) }
    ensures points { IfOk result (λ part. (z : Spot) → IsInside part.planes z ↔ (IsInside r.planes z × Holds h z)) }
{
    let mut planes = r.planes.into_vec();
    match planes.push(h) {
        Ok(()) => Ok(Region {
            planes: Seq::new(planes),
        }),
        Err(e) => Err((
            Region {
                planes: Seq::new(planes),
            },
            e.into(),
        )),
    }
}

/// Whether h and g clash with one of these.
pub fn clash_with(h: &HalfPlane, g: &HalfPlane, planes: &[HalfPlane]) -> bool
    ensures { result ≡ regions.clash_with h.now g.now planes.now }
{
    for k in planes {
        if clash(h, g, k) {
            return true;
        }
    }
    false
}

// Whether h clashes with two of these, which may be the same one twice.
fn clash_with_two(h: &HalfPlane, planes: &[HalfPlane]) -> bool
    ensures { result ≡ regions.clash_with_two h.now planes.now }
{
    for i in 0..planes.len() {
        if clash_with(h, &planes[i], &planes[i..]) {
            return true;
        }
    }
    false
}

// The same of two lists, one behind the other.
#[tactic(auto, using(crate::proofs::Inside::with_both))]
fn clash_with_parts(h: &HalfPlane, g: &HalfPlane, front: &[HalfPlane], back: &[HalfPlane]) -> bool
    ensures { result ≡ regions.clash_with h.now g.now (front.now ++ back.now) }
{
    clash_with(h, g, front) || clash_with(h, g, back)
}

fn clash_with_two_parts(h: &HalfPlane, front: &[HalfPlane], back: &[HalfPlane]) -> bool
    ensures { result ≡ regions.clash_with_two h.now (front.now ++ back.now) }
{
    for i in 0..front.len() {
        if clash_with_parts(h, &front[i], &front[i..], back) {
            return true;
        }
    }
    clash_with_two(h, back)
}

// Nothing but the fact that each of these has a direction.
fn directed(planes: &[HalfPlane])
    ensures { AllDirected planes.now }
{
    for h in planes {
        h.half_plane();
    }
}

fn without_covered(all: Vec<HalfPlane>) -> Vec<HalfPlane>
    ensures { result.items ≡ reduced [] all.items }
{
    let mut planes = all;
    let mut i = 0;
    while i < planes.len() {
        let h = planes[i].opposite();
        if clash_with_two_parts(&h, &planes[..i], &planes[i + 1..]) {
            planes.remove(i);
        } else {
            i += 1;
        }
    }
    planes
}

/// The region without the half-planes that don't count. In order, each is dropped where its opposite clashes with two
/// others of those left, which may be the same one twice. The points stay.
#[tactic(auto, using(crate::proofs::Regions::reduced_all))]
pub fn reduce(r: Region) -> Region
    ensures planes { result.planes ≡ reduced [] r.planes }
    ensures points { (z : Spot) → IsSpot z → IsInside result.planes z ↔ IsInside r.planes z }
{
    let planes = r.planes.into_vec();
    directed(&planes);
    Region {
        planes: Seq::new(without_covered(planes)),
    }
}
