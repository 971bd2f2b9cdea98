//! Half-planes p x + q y + r > 0 with whole golden p, q and r.
ghost use Rattle.std.specs.Prelude.{◌≡◌, ◌^◌, ◌-◌, ◌<◌, ◌≤◌, ◌↔◌, IsTrue, [], ◌∷◌, neg_ℤ, pos, unsigned_abs, IfOk, IsErrOf};
ghost use Rattle.wt_golden.specs.Sizes.{IsBelow};
ghost use Rattle.wt_golden.specs.Fractions.{common_of};
ghost use Rattle.wt_plane.specs.Six.{half};
ghost use Rattle.wt_golden.specs.Whole.{whole, plus, times, IsPositive};
ghost use Rattle.wt_golden.specs.Wide.{number};
ghost use Rattle.wt_plane.specs.HalfPlanes.{numbers_of, HasDirection, half_limit, opposite_half, divided_half, reduced_half, moved_half, raw_half, shifted, Spot, Holds, IsSmallHalf, IsHalfPlane, half_of, GivesHalfPlane};
ghost use Rattle.wt_plane.specs.HalfPlanes as spec;

use std::marker::Model;
use wt_golden::{Golden, TooLarge, Wide, common, divided};

const LIMIT: i128 = 262_144;

/// The points (x, y) with (p0 + p1 φ) x + (q0 + q1 φ) y + (r0 + r1 φ) > 0, without the border. p and q are not both 0, the
/// six numbers have no common divisor, and each is below 2^18 in absolute value.
#[derive(Clone, Copy, Debug)]
pub struct HalfPlane {
    p0: i64,
    p1: i64,
    q0: i64,
    q1: i64,
    r0: i64,
    r1: i64,
}

impl Model for HalfPlane {
    ghost use Rattle.wt_golden.specs.Whole.{Whole};
    ghost use Rattle.wt_plane.specs.HalfPlanes.{Half, IsHalfPlane};

    ghost Value = { Half };

    ghost view = { λ h. record { p = record { a = h.p0; b = h.p1 }; q = record { a = h.q0; b = h.q1 }; r = record { a = h.r0; b = h.r1 } } };

    ghost invariant = { λ h. IsHalfPlane (record { p = record { a = h.p0; b = h.p1 }; q = record { a = h.q0; b = h.q1 }; r = record { a = h.r0; b = h.r1 } }) };

    ghost inverse = { λ h. record { p0 = h.p.a; p1 = h.p.b; q0 = h.q.a; q1 = h.q.b; r0 = h.r.a; r1 = h.r.b } };
}

/// Why six numbers make no half-plane.
#[derive(Clone, Copy, Debug, PartialEq, Eq, Drop)]
pub enum PlaneFault {
    /// p and q are 0.
    NoDirection,
    /// Divided by the common divisor a number isn't below 2^18 in absolute value.
    TooLarge,
}

// The numbers of a half-plane, before they are divided by their common divisor.
#[derive(Clone, Copy)]
struct Six {
    p: Wide,
    q: Wide,
    r: Wide,
}

fn is_small(x: i128) -> bool
    ensures { IsTrue result ↔ (unsigned_abs x ≤ half_limit) }
{
    x > -LIMIT && x < LIMIT
}

fn is_small_pair(x: Wide) -> bool
    ensures { IsTrue result ↔ IsBelow (number x) half_limit }
{
    is_small(x.a) && is_small(x.b)
}

fn are_small(s: Six) -> bool
    ensures { IsTrue result ↔ IsSmallHalf (half s) }
{
    is_small_pair(s.p) && is_small_pair(s.q) && is_small_pair(s.r)
}

fn narrow(x: i128) -> i64
    requires { unsigned_abs x ≤ half_limit }
    ensures { result ≡ x }
{
    x as i64
}

fn common_divisor(s: Six) -> u128
    ensures { result ≡ common_of (numbers_of (half s)) }
{
    common(&[s.p.a, s.p.b, s.q.a, s.q.b, s.r.a, s.r.b])
}

pub(crate) fn divided_pair(x: Wide, divisor: u128) -> Wide
    requires above { 0 < divisor }
    requires small { divisor ≤ 2 ^ 126 }
    ensures { number result ≡ spec.divided (number x) divisor }
{
    Wide {
        a: divided(x.a, divisor),
        b: divided(x.b, divisor),
    }
}

fn divided_six(s: Six, divisor: u128) -> Six
    requires above { 0 < divisor }
    requires small { divisor ≤ 2 ^ 126 }
    ensures { half result ≡ divided_half (half s) divisor }
{
    Six {
        p: divided_pair(s.p, divisor),
        q: divided_pair(s.q, divisor),
        r: divided_pair(s.r, divisor),
    }
}

fn reduced_six(s: Six) -> Six
    requires direction { HasDirection (half s) }
    requires p { IsBelow (half s).p (2 ^ 126) }
    requires q { IsBelow (half s).q (2 ^ 126) }
    ensures { half result ≡ reduced_half (half s) }
{
    divided_six(s, common_divisor(s))
}

// The half-plane without a common divisor, or that it is out of limit then.
fn lowest_half(s: Six) -> Result<HalfPlane, TooLarge>
    requires direction { HasDirection (half s) }
    requires p { IsBelow (half s).p (2 ^ 126) }
    requires q { IsBelow (half s).q (2 ^ 126) }
    ensures { GivesHalfPlane result (half s) }
{
    let kept = reduced_six(s);
    if are_small(kept) {
        Ok(HalfPlane {
            p0: narrow(kept.p.a),
            p1: narrow(kept.p.b),
            q0: narrow(kept.q.a),
            q1: narrow(kept.q.b),
            r0: narrow(kept.r.a),
            r1: narrow(kept.r.b),
        })
    } else {
        Err(TooLarge)
    }
}

fn is_zero(x: Wide) -> bool
    ensures { IsTrue result ↔ (number x ≡ whole (pos 0)) }
{
    x.a == 0 && x.b == 0
}

// The half-plane, or the first of its faults.
fn made(s: Six) -> Result<HalfPlane, PlaneFault>
    requires p { IsBelow (half s).p (2 ^ 126) }
    requires q { IsBelow (half s).q (2 ^ 126) }
    ensures no_direction { IsErrOf result PlaneFault.NoDirection ↔ (HasDirection (half s) → ⊥) }
    ensures made { IfOk result (λ h. (h ≡ reduced_half (half s)) × IsHalfPlane h) }
    ensures too_large { IsErrOf result PlaneFault.TooLarge → IsSmallHalf (reduced_half (half s)) → ⊥ }
{
    if is_zero(s.p) && is_zero(s.q) {
        return Err(PlaneFault::NoDirection);
    }
    match lowest_half(s) {
        Ok(h) => Ok(h),
        Err(_) => Err(PlaneFault::TooLarge),
    }
}

fn wide(a: i64, b: i64) -> Wide
    ensures value { number result ≡ record { a = a; b = b } }
    ensures small { IsBelow (number result) (2 ^ 126) }
{
    Wide {
        a: a as i128,
        b: b as i128,
    }
}

// r + first + second
fn moved_constant(r: Wide, first: Wide, second: Wide) -> Wide
    requires r { IsBelow (number r) (2 ^ 90) }
    requires first { IsBelow (number first) (2 ^ 90) }
    requires second { IsBelow (number second) (2 ^ 90) }
    ensures { number result ≡ plus (plus (number r) (number first)) (number second) }
{
    Wide {
        a: r.a + first.a + second.a,
        b: r.b + first.b + second.b,
    }
}

#[tactic(auto, unfolding(crate::specs::HalfPlanes::moved_half))]
fn moved_six(h: &HalfPlane, tx: Golden, ty: Golden) -> Six
    ensures value { half result ≡ moved_half h.now tx ty }
    ensures p { IsBelow (half result).p (2 ^ 126) }
    ensures q { IsBelow (half result).q (2 ^ 126) }
    ensures positive { IsPositive (times (whole tx.d) (whole ty.d)) }
{
    let dx = tx.bottom();
    let dy = ty.bottom();
    let d = dx.times(dy);
    let first = h.p().times(tx.top()).times(dy);
    let second = h.q().times(ty.top()).times(dx);
    Six {
        p: h.p().times(d),
        q: h.q().times(d),
        r: moved_constant(h.r().times(d), first, second),
    }
}

impl HalfPlane {
    /// The half-plane (p0 + p1 φ) x + (q0 + q1 φ) y + (r0 + r1 φ) > 0, divided by the common divisor. `NoDirection` exactly
    /// where p and q are 0; then `TooLarge` exactly where a number, so divided, isn't below 2^18 in absolute value.
    pub fn new(
        p0: i64,
        p1: i64,
        q0: i64,
        q1: i64,
        r0: i64,
        r1: i64,
    ) -> Result<HalfPlane, PlaneFault>
        ensures no_direction { IsErrOf result PlaneFault.NoDirection ↔ (HasDirection (raw_half p0 p1 q0 q1 r0 r1) → ⊥) }
        ensures made { IfOk result (λ h. (h ≡ reduced_half (raw_half p0 p1 q0 q1 r0 r1)) × IsHalfPlane h) }
        ensures too_large { IsErrOf result PlaneFault.TooLarge → IsSmallHalf (reduced_half (raw_half p0 p1 q0 q1 r0 r1)) → ⊥ }
    {
        made(Six {
            p: wide(p0, p1),
            q: wide(q0, q1),
            r: wide(r0, r1),
        })
    }

    /// The half-plane p x + q y + r > 0, divided by the common divisor, or `TooLarge` exactly where a number, so divided,
    /// isn't below 2^18 in absolute value.
    pub fn of(p: Wide, q: Wide, r: Wide) -> Result<HalfPlane, TooLarge>
        requires direction { HasDirection (half_of (number p) (number q) (number r)) }
        requires p { IsBelow (number p) (2 ^ 126) }
        requires q { IsBelow (number q) (2 ^ 126) }
        ensures { GivesHalfPlane result (half_of (number p) (number q) (number r)) }
    {
        lowest_half(Six { p, q, r })
    }

    /// The half-plane that holds at z exactly where this one holds at z + (tx, ty). `TooLarge` exactly where its six
    /// numbers, made whole and divided by their common divisor, aren't all below 2^18 in absolute value.
    pub fn moved(self, tx: Golden, ty: Golden) -> Result<HalfPlane, TooLarge>
        ensures exact { GivesHalfPlane result (moved_half self tx ty) }
        ensures points { IfOk result (λ h. (z : Spot) → Holds h z ↔ Holds self (shifted z tx ty)) }
    {
        self.half_plane();
        lowest_half(moved_six(&self, tx, ty))
    }

    /// p0, p1, q0, q1, r0, r1 as they are kept: without a common divisor.
    pub fn numbers(self) -> [i64; 6]
        ensures { result ≡ numbers_of self }
    {
        [self.p0, self.p1, self.q0, self.q1, self.r0, self.r1]
    }

    /// The other side, without the border.
    pub fn opposite(&self) -> HalfPlane
        ensures { result ≡ opposite_half self.now }
    {
        HalfPlane {
            p0: negated(self.p0),
            p1: negated(self.p1),
            q0: negated(self.q0),
            q1: negated(self.q1),
            r0: negated(self.r0),
            r1: negated(self.r1),
        }
    }

    /// Does nothing; its clause says what every half-plane is.
    pub fn half_plane(&self)
        ensures { IsHalfPlane self.now }
    {
        let _part = self.p0;
    }

    /// The factor of x, p0 + p1 φ.
    pub fn p(&self) -> Wide
        ensures value { number result ≡ self.now.p }
        ensures small { IsBelow (number result) half_limit }
    {
        Wide {
            a: self.p0 as i128,
            b: self.p1 as i128,
        }
    }

    /// The factor of y, q0 + q1 φ.
    pub fn q(&self) -> Wide
        ensures value { number result ≡ self.now.q }
        ensures small { IsBelow (number result) half_limit }
    {
        Wide {
            a: self.q0 as i128,
            b: self.q1 as i128,
        }
    }

    /// The constant, r0 + r1 φ.
    pub fn r(&self) -> Wide
        ensures value { number result ≡ self.now.r }
        ensures small { IsBelow (number result) half_limit }
    {
        Wide {
            a: self.r0 as i128,
            b: self.r1 as i128,
        }
    }
}

fn negated(x: i64) -> i64
    requires { unsigned_abs x ≤ half_limit }
    ensures { result ≡ neg_ℤ x }
{
    -x
}
