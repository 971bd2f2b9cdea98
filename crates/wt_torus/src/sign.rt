//! The sign of whole golden numbers too large to be squared in 128 bits.
ghost use Rattle.std.specs.Prelude.{◌≡◌, ◌^◌, ◌≤◌, ◌<◌, ◌+◌, ◌+ℤ◌, unsigned_abs};
ghost use Rattle.std.specs.Bool.{MatchBool};
ghost use Rattle.wt_golden.specs.Wide.{number};
ghost use Rattle.wt_golden.specs.Sizes.{IsBelow};
ghost use Rattle.wt_golden.specs.Whole as spec;
ghost use Rattle.wt_torus.specs.Signs.{IsMixed, IsPlain, number_at, mixed_size};

use wt_golden::Wide;

fn is_mixed(a: i128, b: i128) -> bool
    ensures { MatchBool result (IsMixed a b) (IsPlain a b) }
{
    if a > 0 {
        return b < 0;
    }
    if a < 0 {
        return b > 0;
    }
    false
}

#[tactic(auto, using(crate::proofs::Signs::plain_signs))]
fn is_plainly_positive(a: i128, b: i128) -> bool
    requires { IsPlain a b }
    ensures { result ≡ spec.is_positive (number_at a b) }
{
    a >= 0 && b >= 0 && (a > 0 || b > 0)
}

// The product with φ.
#[tactic(auto, using(crate::proofs::Signs::turned_signs, crate::proofs::Signs::turned_smaller, crate::proofs::Signs::turned_below))]
fn turned(x: Wide) -> Wide
    requires mixed { IsMixed x.a x.b }
    requires small { IsBelow (number x) (2 ^ 120) }
    ensures sign { spec.is_positive (number result) ≡ spec.is_positive (number x) }
    ensures smaller { mixed_size result.a result.b < mixed_size x.a x.b }
    ensures small { IsBelow (number result) (2 ^ 120) }
{
    let b = sum(x.a, x.b);
    Wide { a: x.b, b }
}

fn sum(a: i128, b: i128) -> i128
    requires first { unsigned_abs a ≤ 2 ^ 125 }
    requires second { unsigned_abs b ≤ 2 ^ 125 }
    ensures { result ≡ a +ℤ b }
{
    a + b
}

/// Whether the number is above 0, for parts of up to 2^120: its product with φ, b + (a + b) φ, has the same
/// sign, and where a and b have opposite signs, its parts are smaller together.
pub fn is_positive(x: Wide) -> bool
    requires { IsBelow (number x) (2 ^ 120) }
    ensures { result ≡ spec.is_positive (number x) }
{
    let mut y = x;
    while is_mixed(y.a, y.b) {
        y = turned(y);
    }
    is_plainly_positive(y.a, y.b)
}
