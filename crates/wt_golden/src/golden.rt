//! The numbers of Q(√5) in lowest terms.
ghost use Rattle.std.specs.Prelude.{◌≡◌, ◌^◌, ◌<◌, ◌≤◌, ◌<ℤ◌, ◌*ℤ◌, ◌↔◌, pos, unsigned_abs, IsTrue, IfOk, IsErrOf};
ghost use Rattle.wt_golden.specs.Fractions.{lowest, upright, sum, negative, difference, order, limit, IsWithin, IsGolden, GivesLowest};
ghost use Rattle.wt_golden.specs.Fractions as fractions;
ghost use Rattle.wt_golden.specs.Sizes.{IsBelow};
ghost use Rattle.wt_golden.specs.Whole.{whole};
ghost use Rattle.wt_golden.specs.Whole as whole_words;
ghost use Rattle.wt_golden.specs.Wide.{number};
ghost use Rattle.wt_golden.specs.Parts.{fraction};

use crate::parts::{Parts, lowest_parts, over_wide, upright_parts};
use crate::wide::Wide;
use std::cmp::Ordering;
use std::marker::Model;

const LIMIT: i128 = 1_073_741_824;

/// A number that isn't below 2^30 in absolute value in lowest terms.
#[derive(Clone, Copy, Debug, PartialEq, Eq, Drop)]
pub struct TooLarge;

/// Why three numbers make no golden number.
#[derive(Clone, Copy, Debug, PartialEq, Eq, Drop)]
pub enum GoldenFault {
    /// The denominator is 0.
    ZeroDivisor,
    /// In lowest terms a number isn't below 2^30 in absolute value.
    TooLarge,
}

/// The number (a + b φ) / d in lowest terms: d is above 0, nothing but 1 divides all three, and each is below 2^30 in
/// absolute value. φ is the golden number, the positive root of φ² = φ + 1.
#[derive(Clone, Copy, Debug)]
pub struct Golden {
    a: i64,
    b: i64,
    d: i64,
}

impl Model for Golden {
    ghost use Rattle.wt_golden.specs.Fractions.{Fraction, IsGolden};

    ghost Value = { Fraction };

    ghost view = { λ g. record { a = g.a; b = g.b; d = g.d } };

    ghost invariant = { λ g. IsGolden (record { a = g.a; b = g.b; d = g.d }) };

    ghost inverse = { λ g. record { a = g.a; b = g.b; d = g.d } };
}

fn is_small(x: i128) -> bool
    ensures { IsTrue result ↔ (unsigned_abs x < limit) }
{
    x > -LIMIT && x < LIMIT
}

fn are_small(f: Parts) -> bool
    ensures { IsTrue result ↔ IsWithin (fraction f) }
{
    is_small(f.a) && is_small(f.b) && is_small(f.d)
}

fn narrow(x: i128) -> i64
    requires { unsigned_abs x < limit }
    ensures { result ≡ x }
{
    x as i64
}

impl Golden {
    /// The number (a + b φ) / d. A negative d turns the sign of all three numbers first. `ZeroDivisor` exactly where d is
    /// 0; `TooLarge` exactly where in lowest terms a number isn't below 2^30 in absolute value.
    pub fn new(a: i64, b: i64, d: i64) -> Result<Golden, GoldenFault>
        ensures zero { IsErrOf result GoldenFault.ZeroDivisor ↔ (d ≡ pos 0) }
        ensures made { IfOk result (λ g. (g ≡ lowest (upright (record { a = a; b = b; d = d }))) × IsGolden g) }
        ensures too_large { IsErrOf result GoldenFault.TooLarge → IsWithin (lowest (upright (record { a = a; b = b; d = d }))) → ⊥ }
    {
        if d == 0 {
            return Err(GoldenFault::ZeroDivisor);
        }
        match Golden::over(upright_parts(a as i128, b as i128, d as i128)) {
            Ok(g) => Ok(g),
            Err(_) => Err(GoldenFault::TooLarge),
        }
    }

    /// The number in lowest terms, or `TooLarge` exactly where it is out of limit then.
    pub fn over(f: Parts) -> Result<Golden, TooLarge>
        requires divisor { pos 0 <ℤ f.d }
        requires small { unsigned_abs f.d ≤ 2 ^ 126 }
        ensures { GivesLowest result (fraction f) }
    {
        let parts = lowest_parts(f);
        if are_small(parts) {
            Ok(Golden {
                a: narrow(parts.a),
                b: narrow(parts.b),
                d: narrow(parts.d),
            })
        } else {
            Err(TooLarge)
        }
    }

    /// The number in lowest terms, where its parts are within the limit.
    pub fn kept(f: Parts) -> Golden
        requires divisor { pos 0 <ℤ f.d }
        requires within { IsWithin (fraction f) }
        ensures { result ≡ lowest (fraction f) }
    {
        let parts = lowest_parts(f);
        Golden {
            a: narrow(parts.a),
            b: narrow(parts.b),
            d: narrow(parts.d),
        }
    }

    /// a, b and d in lowest terms.
    pub fn parts(self) -> (i64, i64, i64)
        ensures { result ≡ (self.a, self.b, self.d) }
    {
        (self.a, self.b, self.d)
    }

    /// Does nothing; its clause says what every golden number is.
    pub fn golden(&self)
        ensures { IsGolden self.now }
    {
        let _part = self.a;
    }

    /// The numerator a + b φ.
    pub fn top(self) -> Wide
        ensures value { number result ≡ fractions.top self }
        ensures small { IsBelow (number result) (2 ^ 30) }
    {
        Wide {
            a: self.a as i128,
            b: self.b as i128,
        }
    }

    /// The denominator d, as a whole golden number.
    pub fn bottom(self) -> Wide
        ensures value { number result ≡ whole self.d }
        ensures small { IsBelow (number result) (2 ^ 30) }
        ensures above { pos 0 <ℤ self.d }
    {
        Wide {
            a: self.d as i128,
            b: 0,
        }
    }

    /// The sum, exactly, or `TooLarge` exactly where it is out of limit in lowest terms.
    pub fn add(self, o: Golden) -> Result<Golden, TooLarge>
        ensures { GivesLowest result (sum self o) }
    {
        Golden::over(sum_parts(self, o))
    }

    /// The difference, exactly, or `TooLarge` exactly where it is out of limit in lowest terms.
    pub fn sub(self, o: Golden) -> Result<Golden, TooLarge>
        ensures { GivesLowest result (difference self o) }
    {
        Golden::over(difference_parts(self, o))
    }

    /// The product, exactly, or `TooLarge` exactly where it is out of limit in lowest terms.
    pub fn mul(self, o: Golden) -> Result<Golden, TooLarge>
        ensures { GivesLowest result (fractions.product self o) }
    {
        Golden::over(product_parts(self, o))
    }

    /// How the number stands to the other.
    pub fn compare(self, o: Golden) -> Ordering
        ensures { result ≡ order self o }
    {
        let left = self.top().times(o.bottom());
        let right = o.top().times(self.bottom());
        left.minus(right).sign()
    }

    /// How the number stands to 0.
    pub fn sign(self) -> Ordering
        ensures { result ≡ whole_words.sign (fractions.top self) }
    {
        self.top().sign()
    }

    fn denominator(self) -> i128
        ensures value { result ≡ self.d }
        ensures small { unsigned_abs result ≤ 2 ^ 30 }
        ensures above { pos 0 <ℤ result }
    {
        self.d as i128
    }
}

fn multiplied(x: i128, y: i128) -> i128
    requires left { unsigned_abs x ≤ 2 ^ 30 }
    requires right { unsigned_abs y ≤ 2 ^ 30 }
    ensures value { result ≡ x *ℤ y }
    ensures small { unsigned_abs result ≤ 2 ^ 60 }
{
    x * y
}

/// The product of the two denominators.
pub fn common_denominator(f: Golden, g: Golden) -> i128
    ensures value { result ≡ f.d *ℤ g.d }
    ensures small { unsigned_abs result ≤ 2 ^ 60 }
    ensures above { pos 0 <ℤ result }
{
    multiplied(f.denominator(), g.denominator())
}

#[tactic(auto, unfolding(crate::specs::Fractions::sum))]
fn sum_parts(f: Golden, g: Golden) -> Parts
    ensures value { fraction result ≡ sum f g }
    ensures small { unsigned_abs result.d ≤ 2 ^ 126 }
    ensures above { pos 0 <ℤ result.d }
{
    let left = f.top().times(g.bottom());
    let right = g.top().times(f.bottom());
    over_wide(left.plus(right), common_denominator(f, g))
}

#[tactic(auto, unfolding(crate::specs::Fractions::sum, crate::specs::Fractions::negative))]
fn difference_parts(f: Golden, g: Golden) -> Parts
    ensures value { fraction result ≡ difference f g }
    ensures small { unsigned_abs result.d ≤ 2 ^ 126 }
    ensures above { pos 0 <ℤ result.d }
{
    let left = f.top().times(g.bottom());
    let right = g.top().opposite().times(f.bottom());
    over_wide(left.plus(right), common_denominator(f, g))
}

#[tactic(auto, unfolding(crate::specs::Fractions::product))]
fn product_parts(f: Golden, g: Golden) -> Parts
    ensures value { fraction result ≡ fractions.product f g }
    ensures small { unsigned_abs result.d ≤ 2 ^ 126 }
    ensures above { pos 0 <ℤ result.d }
{
    over_wide(f.top().times(g.top()), common_denominator(f, g))
}
