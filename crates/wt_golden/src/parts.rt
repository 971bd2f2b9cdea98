//! Numbers (a + b φ) / d in 128 bits, before they are known to be within the limit.
ghost use Rattle.std.specs.Prelude.{◌≡◌, ◌^◌, ◌≤◌, ◌<ℤ◌, pos, unsigned_abs};
ghost use Rattle.wt_golden.specs.Fractions.{lowest, upright, over};
ghost use Rattle.wt_golden.specs.Fractions as fractions;
ghost use Rattle.wt_golden.specs.Wide.{number};
ghost use Rattle.wt_golden.specs.Parts.{fraction};

use crate::divisor::{common, divided};
use crate::wide::Wide;

/// The number (a + b φ) / d, in lowest terms or not.
#[derive(Clone, Copy, Debug)]
pub struct Parts {
    pub a: i128,
    pub b: i128,
    pub d: i128,
}

fn common_divisor(f: Parts) -> u128
    ensures { result ≡ fractions.common (fraction f) }
{
    common(&[f.a, f.b, f.d])
}

pub(crate) fn lowest_parts(f: Parts) -> Parts
    requires divisor { pos 0 <ℤ f.d }
    requires small { unsigned_abs f.d ≤ 2 ^ 126 }
    ensures { fraction result ≡ lowest (fraction f) }
{
    let divisor = common_divisor(f);
    Parts {
        a: divided(f.a, divisor),
        b: divided(f.b, divisor),
        d: divided(f.d, divisor),
    }
}

// The same number with d above 0.
pub(crate) fn upright_parts(a: i128, b: i128, d: i128) -> Parts
    requires a { unsigned_abs a ≤ 2 ^ 63 }
    requires b { unsigned_abs b ≤ 2 ^ 63 }
    requires d { unsigned_abs d ≤ 2 ^ 63 }
    ensures value { fraction result ≡ upright (record { a = a; b = b; d = d }) }
    ensures small { unsigned_abs result.d ≤ 2 ^ 63 }
    ensures above { (d ≡ pos 0 → ⊥) → pos 0 <ℤ result.d }
{
    if d < 0 {
        Parts {
            a: -a,
            b: -b,
            d: -d,
        }
    } else {
        Parts { a, b, d }
    }
}

pub(crate) fn over_wide(x: Wide, d: i128) -> Parts
    ensures { fraction result ≡ over (number x) d }
{
    Parts { a: x.a, b: x.b, d }
}
