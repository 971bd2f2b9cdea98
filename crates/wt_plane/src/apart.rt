//! Whether three half-planes have no common point, by the signs of products of their numbers.
ghost use Rattle.std.specs.Prelude.{◌≡◌, ◌^◌, ◌+◌, ◌*◌};
ghost use Rattle.std.specs.Bool.{MatchBool};
ghost use Rattle.wt_golden.specs.Sizes.{IsBelow};
ghost use Rattle.wt_golden.specs.Wide.{number};
ghost use Rattle.wt_golden.specs.Whole.{plus, minus, times};
ghost use Rattle.wt_golden.specs.Whole as whole;
ghost use Rattle.wt_plane.specs.HalfPlanes.{HasCommonSpot};
ghost use Rattle.wt_plane.specs.Clash.{at_least_zero, at_most_zero, clashes};
ghost use Rattle.wt_plane.specs.Clash as clash_words;

use crate::plane::HalfPlane;
use std::cmp::Ordering;
use wt_golden::Wide;

// x y + z w
fn sum_of_products(x: Wide, y: Wide, z: Wide, w: Wide) -> Wide
    requires x { IsBelow (number x) (2 ^ 39) }
    requires y { IsBelow (number y) (2 ^ 18) }
    requires z { IsBelow (number z) (2 ^ 39) }
    requires w { IsBelow (number w) (2 ^ 18) }
    ensures { number result ≡ plus (times (number x) (number y)) (times (number z) (number w)) }
{
    x.times(y).plus(z.times(w))
}

// x y - z w
fn difference_of_products(x: Wide, y: Wide, z: Wide, w: Wide) -> Wide
    requires x { IsBelow (number x) (2 ^ 39) }
    requires y { IsBelow (number y) (2 ^ 18) }
    requires z { IsBelow (number z) (2 ^ 39) }
    requires w { IsBelow (number w) (2 ^ 18) }
    ensures { number result ≡ minus (times (number x) (number y)) (times (number z) (number w)) }
{
    x.times(y).minus(z.times(w))
}

#[tactic(auto, unfolding(crate::specs::Clash::cross))]
fn cross(f: &HalfPlane, g: &HalfPlane) -> Wide
    ensures value { number result ≡ clash_words.cross f.now g.now }
    ensures small { IsBelow (number result) (2 ^ 39) }
{
    difference_of_products(f.p(), g.q(), f.q(), g.p())
}

#[tactic(auto, unfolding(crate::specs::Clash::dot))]
fn dot(f: &HalfPlane, g: &HalfPlane) -> Wide
    ensures value { number result ≡ clash_words.dot f.now g.now }
    ensures small { IsBelow (number result) (2 ^ 39) }
{
    sum_of_products(f.p(), g.p(), f.q(), g.q())
}

#[tactic(auto, unfolding(crate::specs::Clash::weighted))]
fn weighted(f: &HalfPlane, g: &HalfPlane, h: &HalfPlane) -> Wide
    ensures value { number result ≡ clash_words.weighted f.now g.now h.now }
    ensures small { IsBelow (number result) (2 ^ 61) }
{
    sum_of_products(cross(g, h), f.r(), cross(h, f), g.r()).plus(cross(f, g).times(h.r()))
}

#[tactic(auto, unfolding(crate::specs::Clash::gap))]
fn gap(f: &HalfPlane, g: &HalfPlane) -> Wide
    ensures value { number result ≡ clash_words.gap f.now g.now }
    ensures small { IsBelow (number result) (2 ^ 61) }
{
    difference_of_products(dot(f, f), g.r(), dot(f, g), f.r())
}

fn is_at_least_zero(x: Wide) -> bool
    requires { IsBelow (number x) (2 ^ 61) }
    ensures { result ≡ at_least_zero (number x) }
{
    !x.opposite().is_positive()
}

fn is_at_most_zero(x: Wide) -> bool
    requires { IsBelow (number x) (2 ^ 61) }
    ensures { result ≡ at_most_zero (number x) }
{
    !x.is_positive()
}

// For g to the left of f: whether h leaves nothing of the sector of f and g.
fn closes(f: &HalfPlane, g: &HalfPlane, h: &HalfPlane) -> bool
    ensures { result ≡ clash_words.closes f.now g.now h.now }
{
    is_at_least_zero(cross(g, h))
        && is_at_least_zero(cross(h, f))
        && is_at_most_zero(weighted(f, g, h))
}

// For g and h opposite to f: whether one of them ends before f begins.
fn faces(f: &HalfPlane, g: &HalfPlane, h: &HalfPlane) -> bool
    ensures { result ≡ clash_words.faces f.now g.now h.now }
{
    is_at_most_zero(gap(f, g)) || is_at_most_zero(gap(f, h))
}

fn points_along(f: &HalfPlane, g: &HalfPlane) -> bool
    ensures { result ≡ whole.is_positive (clash_words.dot f.now g.now) }
{
    dot(f, g).is_positive()
}

// For three parallel directions.
fn level(f: &HalfPlane, g: &HalfPlane, h: &HalfPlane) -> bool
    ensures { result ≡ clash_words.level f.now g.now h.now }
{
    let second = points_along(f, g);
    let third = points_along(f, h);
    if second && third {
        false
    } else if second {
        faces(h, f, g)
    } else if third {
        faces(g, f, h)
    } else {
        faces(f, g, h)
    }
}

fn turn(f: &HalfPlane, g: &HalfPlane) -> Ordering
    ensures { result ≡ whole.sign (clash_words.cross f.now g.now) }
{
    cross(f, g).sign()
}

/// Whether no point over Q(√5) lies in all three half-planes; one may stand for several. The point has no limit.
pub fn clash(h1: &HalfPlane, h2: &HalfPlane, h3: &HalfPlane) -> bool
    ensures test { result ≡ clashes h1.now h2.now h3.now }
    ensures exact { MatchBool result (HasCommonSpot h1.now h2.now h3.now → ⊥) (HasCommonSpot h1.now h2.now h3.now) }
{
    h1.half_plane();
    h2.half_plane();
    h3.half_plane();
    test_by_signs(h1, h2, h3)
}

#[tactic(auto, unfolding(crate::specs::Clash::clashes))]
fn test_by_signs(h1: &HalfPlane, h2: &HalfPlane, h3: &HalfPlane) -> bool
    ensures { result ≡ clashes h1.now h2.now h3.now }
{
    match turn(h1, h2) {
        Ordering::Greater => closes(h1, h2, h3),
        Ordering::Less => closes(h2, h1, h3),
        Ordering::Equal => match turn(h2, h3) {
            Ordering::Greater => closes(h2, h3, h1),
            Ordering::Less => closes(h3, h2, h1),
            Ordering::Equal => match turn(h3, h1) {
                Ordering::Greater => closes(h3, h1, h2),
                Ordering::Less => closes(h1, h3, h2),
                Ordering::Equal => level(h1, h2, h3),
            },
        },
    }
}
