//! Whole golden numbers in 128 bits: exact where the parts are small enough.
ghost use Rattle.std.specs.Prelude.{◌≡◌, ◌^◌, ◌≤◌, ◌+◌, ◌+ℤ◌, ◌*ℤ◌, pos, unsigned_abs, if◌then◌else◌};
ghost use Rattle.std.specs.Ordering.{int_eq};
ghost use Rattle.wt_golden.specs.Whole.{above_zero};
ghost use Rattle.wt_golden.specs.Whole as spec;
ghost use Rattle.wt_golden.specs.Sizes.{IsBelow};
ghost use Rattle.wt_golden.specs.Wide.{number};

use std::cmp::Ordering;

/// The whole golden number a + b φ.
#[derive(Clone, Copy, Debug)]
pub struct Wide {
    pub a: i128,
    pub b: i128,
}

impl Wide {
    /// The sum, where both have parts up to 2^125.
    #[tactic(auto, unfolding(crate::specs::Whole::plus))]
    pub fn plus(self, other: Wide) -> Wide
        requires left { IsBelow (number self) (2 ^ 125) }
        requires right { IsBelow (number other) (2 ^ 125) }
        ensures { number result ≡ spec.plus (number self) (number other) }
    {
        Wide {
            a: self.a + other.a,
            b: self.b + other.b,
        }
    }

    /// The number with the other sign.
    #[tactic(auto, unfolding(crate::specs::Whole::opposite))]
    pub fn opposite(self) -> Wide
        requires { IsBelow (number self) (2 ^ 125) }
        ensures value { number result ≡ spec.opposite (number self) }
        ensures small { IsBelow (number result) (2 ^ 125) }
    {
        Wide {
            a: -self.a,
            b: -self.b,
        }
    }

    /// The difference, where both have parts up to 2^125.
    pub fn minus(self, other: Wide) -> Wide
        requires left { IsBelow (number self) (2 ^ 125) }
        requires right { IsBelow (number other) (2 ^ 125) }
        ensures { number result ≡ spec.minus (number self) (number other) }
    {
        self.plus(other.opposite())
    }

    /// The product, where both have parts up to 2^61.
    #[tactic(auto, unfolding(crate::specs::Whole::times))]
    pub fn times(self, other: Wide) -> Wide
        requires left { IsBelow (number self) (2 ^ 61) }
        requires right { IsBelow (number other) (2 ^ 61) }
        ensures { number result ≡ spec.times (number self) (number other) }
    {
        let aa = product(self.a, other.a);
        let ab = product(self.a, other.b);
        let ba = product(self.b, other.a);
        let bb = product(self.b, other.b);
        let a = sum(aa, bb);
        let b = sum(sum(ab, ba), bb);
        Wide { a, b }
    }

    /// Whether the number is above 0, where its parts are up to 2^61.
    #[tactic(auto, unfolding(crate::specs::Whole::is_positive))]
    pub fn is_positive(self) -> bool
        requires { IsBelow (number self) (2 ^ 61) }
        ensures { result ≡ spec.is_positive (number self) }
    {
        is_above(twice(self.a, self.b), self.b)
    }

    /// How the number stands to 0, where its parts are up to 2^61.
    #[tactic(auto, using(crate::proofs::Signs::sign_from))]
    pub fn sign(self) -> Ordering
        requires { IsBelow (number self) (2 ^ 61) }
        ensures { result ≡ spec.sign (number self) }
    {
        answer(self.is_positive(), is_zero(self.a) && is_zero(self.b))
    }
}

fn answer(positive: bool, zero: bool) -> Ordering
    ensures { result ≡ (if positive then Ordering.Greater else if zero then Ordering.Equal else Ordering.Less) }
{
    if positive {
        Ordering::Greater
    } else if zero {
        Ordering::Equal
    } else {
        Ordering::Less
    }
}

fn is_zero(x: i128) -> bool
    ensures { result ≡ int_eq x (pos 0) }
{
    x == 0
}

fn sum(x: i128, y: i128) -> i128
    requires left { unsigned_abs x ≤ 2 ^ 125 }
    requires right { unsigned_abs y ≤ 2 ^ 125 }
    ensures value { result ≡ x +ℤ y }
    ensures small { unsigned_abs result ≤ unsigned_abs x + unsigned_abs y }
{
    x + y
}

fn product(x: i128, y: i128) -> i128
    requires left { unsigned_abs x ≤ 2 ^ 63 }
    requires right { unsigned_abs y ≤ 2 ^ 63 }
    ensures value { result ≡ x *ℤ y }
    ensures small { unsigned_abs x ≤ 2 ^ 61 → unsigned_abs y ≤ 2 ^ 61 → unsigned_abs result ≤ 2 ^ 122 }
{
    x * y
}

fn twice(a: i128, b: i128) -> i128
    requires a { unsigned_abs a ≤ 2 ^ 61 }
    requires b { unsigned_abs b ≤ 2 ^ 61 }
    ensures value { result ≡ pos 2 *ℤ a +ℤ b }
    ensures small { unsigned_abs result ≤ 2 ^ 63 }
{
    2 * a + b
}

fn five_squares(b: i128) -> i128
    requires { unsigned_abs b ≤ 2 ^ 61 }
    ensures { result ≡ pos 5 *ℤ (b *ℤ b) }
{
    5 * product(b, b)
}

// Whether u + b √5 is above 0: by the signs, and where they differ by the squares.
#[tactic(auto, using(crate::proofs::Signs::above_both, crate::proofs::Signs::above_first, crate::proofs::Signs::above_second, crate::proofs::Signs::above_none))]
fn is_above(u: i128, b: i128) -> bool
    requires u { unsigned_abs u ≤ 2 ^ 63 }
    requires b { unsigned_abs b ≤ 2 ^ 61 }
    ensures { result ≡ above_zero u b }
{
    if u >= 0 && b >= 0 {
        return u > 0 || b > 0;
    }
    let first = product(u, u);
    let second = five_squares(b);
    if u > 0 {
        return second < first;
    }
    b > 0 && first < second
}
