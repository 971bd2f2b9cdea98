//! Greatest common divisors, and numbers divided by them.
ghost use Rattle.std.specs.Prelude.{◌≡◌, ◌<◌, ◌≤◌, ◌^◌, pos, int_div};
ghost use Rattle.wt_golden.specs.Fractions.{common_of};
ghost use Rattle.wt_golden.specs.Fractions as spec;

#[tactic(auto, using(crate::proofs::Divisors::gcd_zero, crate::proofs::Divisors::gcd_step))]
fn gcd(a: u128, b: u128) -> u128
    ensures { result ≡ spec.gcd a b }
{
    let mut x = a;
    let mut y = b;
    while y != 0 {
        let rest = x % y;
        x = y;
        y = rest;
    }
    x
}

/// The greatest number that divides all of these, or 0 where all are 0.
pub fn common(numbers: &[i128]) -> u128
    ensures { result ≡ common_of numbers.now }
{
    let mut divisor: u128 = 0;
    let mut i = numbers.len();
    while i > 0 {
        i -= 1;
        divisor = gcd(numbers[i].unsigned_abs(), divisor);
    }
    divisor
}

/// x / divisor, rounded towards 0.
pub fn divided(x: i128, divisor: u128) -> i128
    requires above { 0 < divisor }
    requires small { divisor ≤ 2 ^ 126 }
    ensures { result ≡ int_div x (pos divisor) }
{
    x / (divisor as i128)
}
