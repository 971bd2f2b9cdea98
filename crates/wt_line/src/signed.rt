// Signed numbers as tokens.
ghost use Rattle.std.specs.Prelude.{◌≡◌, ◌<◌, ◌^◌, unsigned_abs, SomeIff, true};
ghost use Rattle.wt_line.specs.Signed.{signed_value};
ghost use Rattle.wt_line.specs.Signed as spec;

use crate::numbers::number;
use wt_io::is_decimal;

/// Whether a token is a signed number: decimal digits without a leading zero, with a minus before them where it is
/// below zero. `-0` is none.
pub fn is_signed(token: &[u8]) -> bool
    ensures { result ≡ spec.is_signed token.now }
{
    let [first, digits @ ..] = token else {
        return false;
    };
    if *first == b'-' {
        is_decimal(digits) && digits != b"0".as_slice()
    } else {
        is_decimal(token)
    }
}

/// The signed number that a token spells; None exactly where it is 2^63 or more in length.
pub fn signed_number(token: &[u8]) -> Option<i64>
    requires { spec.is_signed token.now ≡ true }
    ensures { SomeIff result (unsigned_abs (signed_value token.now) < 2 ^ 63) (signed_value token.now) }
{
    let [first, digits @ ..] = token else {
        return None;
    };
    if *first == b'-' {
        Some(-i64::try_from(number(digits)?).ok()?)
    } else {
        i64::try_from(number(token)?).ok()
    }
}
