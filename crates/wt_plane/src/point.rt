//! Points over Q(√5), over the least common denominator of their coordinates.
ghost use Rattle.std.specs.Prelude.{◌≡◌, ◌<◌, ◌≤◌, ◌^◌, ◌<ℤ◌, ◌↔◌, pos, unsigned_abs, IsTrue, IfOk};
ghost use Rattle.wt_golden.specs.Sizes.{IsBelow};
ghost use Rattle.wt_golden.specs.Whole.{whole};
ghost use Rattle.wt_golden.specs.Fractions.{common_of};
ghost use Rattle.wt_plane.specs.Five.{point};
ghost use Rattle.wt_golden.specs.Wide.{number};
ghost use Rattle.wt_plane.specs.HalfPlanes.{IsSpot, IsPoint, spot_limit, IsSmallSpot, spot, spot_numbers, divided_spot, reduced_spot, x_of, y_of, GivesPoint};

use crate::plane::divided_pair;
use std::marker::Model;
use wt_golden::{Golden, Parts, TooLarge, Wide, common, common_denominator, divided};

const LIMIT: i128 = 1_073_741_824;

/// The point ((x0 + x1 φ) / d, (y0 + y1 φ) / d). d is above 0, the five numbers have no common divisor, and each is below
/// 2^30 in absolute value.
#[derive(Clone, Copy, Debug)]
pub struct Point {
    x0: i64,
    x1: i64,
    y0: i64,
    y1: i64,
    d: i64,
}

impl Model for Point {
    ghost use Rattle.wt_golden.specs.Whole.{Whole};
    ghost use Rattle.wt_plane.specs.HalfPlanes.{Spot, IsPoint};

    ghost Value = { Spot };

    ghost view = { λ z. record { x = record { a = z.x0; b = z.x1 }; y = record { a = z.y0; b = z.y1 }; d = z.d } };

    ghost invariant = { λ z. IsPoint (record { x = record { a = z.x0; b = z.x1 }; y = record { a = z.y0; b = z.y1 }; d = z.d }) };

    ghost inverse = { λ z. record { x0 = z.x.a; x1 = z.x.b; y0 = z.y.a; y1 = z.y.b; d = z.d } };
}

// The numbers of a point, before they are divided by their common divisor.
#[derive(Clone, Copy)]
struct Five {
    x: Wide,
    y: Wide,
    d: i128,
}

fn is_small(x: i128) -> bool
    ensures { IsTrue result ↔ (unsigned_abs x ≤ spot_limit) }
{
    x > -LIMIT && x < LIMIT
}

fn is_small_pair(x: Wide) -> bool
    ensures { IsTrue result ↔ IsBelow (number x) spot_limit }
{
    is_small(x.a) && is_small(x.b)
}

fn are_small(s: Five) -> bool
    ensures { IsTrue result ↔ IsSmallSpot (point s) }
{
    is_small_pair(s.x) && is_small_pair(s.y) && is_small(s.d)
}

fn narrow(x: i128) -> i64
    requires { unsigned_abs x ≤ spot_limit }
    ensures { result ≡ x }
{
    x as i64
}

fn common_divisor(s: Five) -> u128
    ensures { result ≡ common_of (spot_numbers (point s)) }
{
    common(&[s.x.a, s.x.b, s.y.a, s.y.b, s.d])
}

fn divided_five(s: Five, divisor: u128) -> Five
    requires above { 0 < divisor }
    requires small { divisor ≤ 2 ^ 126 }
    ensures { point result ≡ divided_spot (point s) divisor }
{
    Five {
        x: divided_pair(s.x, divisor),
        y: divided_pair(s.y, divisor),
        d: divided(s.d, divisor),
    }
}

fn reduced_five(s: Five) -> Five
    requires divisor { pos 0 <ℤ s.d }
    requires small { unsigned_abs s.d ≤ 2 ^ 126 }
    ensures { point result ≡ reduced_spot (point s) }
{
    divided_five(s, common_divisor(s))
}

// The point over its least common denominator, or that it is out of limit there.
fn lowest_point(s: Five) -> Result<Point, TooLarge>
    requires divisor { pos 0 <ℤ s.d }
    requires small { unsigned_abs s.d ≤ 2 ^ 126 }
    ensures { GivesPoint result (point s) }
{
    let kept = reduced_five(s);
    if are_small(kept) {
        Ok(Point {
            x0: narrow(kept.x.a),
            x1: narrow(kept.x.b),
            y0: narrow(kept.y.a),
            y1: narrow(kept.y.b),
            d: narrow(kept.d),
        })
    } else {
        Err(TooLarge)
    }
}

fn over_both(x: Golden, y: Golden) -> Five
    ensures value { point result ≡ spot x y }
    ensures divisor { pos 0 <ℤ result.d }
    ensures small { unsigned_abs result.d ≤ 2 ^ 126 }
{
    Five {
        x: x.top().times(y.bottom()),
        y: y.top().times(x.bottom()),
        d: common_denominator(x, y),
    }
}

impl Point {
    /// The point (x, y), over the least common denominator. `TooLarge` exactly where a number over it isn't below 2^30 in
    /// absolute value.
    pub fn new(x: Golden, y: Golden) -> Result<Point, TooLarge>
        ensures exact { GivesPoint result (spot x y) }
        ensures coordinates { IfOk result (λ z. (x_of z ≡ x) × (y_of z ≡ y)) }
    {
        x.golden();
        y.golden();
        lowest_point(over_both(x, y))
    }

    /// Does nothing; its clause says what every point is.
    pub fn point(&self)
        ensures { IsPoint self.now }
    {
        let _part = self.x0;
    }

    /// The first coordinate.
    pub fn x(self) -> Golden
        ensures { result ≡ x_of self }
    {
        Golden::kept(Parts {
            a: self.x0 as i128,
            b: self.x1 as i128,
            d: self.d as i128,
        })
    }

    /// The second coordinate.
    pub fn y(self) -> Golden
        ensures { result ≡ y_of self }
    {
        Golden::kept(Parts {
            a: self.y0 as i128,
            b: self.y1 as i128,
            d: self.d as i128,
        })
    }

    /// x0 + x1 φ, which is d times the first coordinate.
    pub fn wide_x(&self) -> Wide
        ensures value { number result ≡ self.now.x }
        ensures small { IsBelow (number result) spot_limit }
    {
        Wide {
            a: self.x0 as i128,
            b: self.x1 as i128,
        }
    }

    /// y0 + y1 φ, which is d times the second coordinate.
    pub fn wide_y(&self) -> Wide
        ensures value { number result ≡ self.now.y }
        ensures small { IsBelow (number result) spot_limit }
    {
        Wide {
            a: self.y0 as i128,
            b: self.y1 as i128,
        }
    }

    /// The common denominator d.
    pub fn wide_d(&self) -> Wide
        ensures value { number result ≡ whole self.now.d }
        ensures small { IsBelow (number result) spot_limit }
        ensures spot { IsSpot self.now }
    {
        Wide {
            a: self.d as i128,
            b: 0,
        }
    }
}
