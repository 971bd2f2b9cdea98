// Numbers in a text.
ghost use Rattle.std.specs.Prelude.{◌≡◌, ◌≤◌, ◌^◌, ◌*◌, ◌+◌, length, MatchOption};
ghost use Rattle.wt_text.specs.Words.{value_from};
ghost use Rattle.wt_text.specs.Words as spec;
ghost use Rattle.wt_io.specs.Numbers.{below, digits_of, in_u64};
ghost use Rattle.wt_io.specs.Numbers as numbers;

use thiserror::Error;

/// Why a token is no number.
#[derive(Clone, Copy, Debug, PartialEq, Eq, Error)]
pub enum NumberFault {
    /// It has another form than decimal digits without a leading zero, or `0`.
    #[error("not a number")]
    NotNumber,
    /// Its value is 2^64 or more.
    #[error("number too large")]
    TooLarge,
}

// How many digits bytes begin with.
#[tactic(auto, using(crate::proofs::Values::digits_stop, crate::proofs::Values::digits_go, crate::proofs::Values::digits_end))]
fn digit_count(bytes: &[u8]) -> usize
    ensures { result ≡ length (digits_of bytes.now) }
{
    for (count, byte) in bytes.iter().enumerate() {
        if !byte.is_ascii_digit() {
            return count;
        }
    }
    bytes.len()
}

// Whether so many digits are some, and have no zero before others.
fn is_plain(bytes: &[u8], count: usize) -> bool
    requires { count ≤ length bytes.now }
    ensures { result ≡ numbers.is_plain bytes.now count }
{
    !(count == 0 || (count > 1 && bytes[0] == b'0'))
}

/// Whether a token spells a number of any size: decimal digits without a leading zero, or `0`.
#[tactic(auto, using(crate::proofs::Values::decimal_by_count, crate::proofs::Values::not_decimal))]
pub fn is_decimal(token: &[u8]) -> bool
    ensures { result ≡ spec.is_decimal token.now }
{
    if !is_plain(token, token.len()) {
        return false;
    }
    digit_count(token) == token.len()
}

// A number with one digit more behind it, where that fits.
fn with_digit(value: u64, digit: u64) -> Option<u64>
    ensures { MatchOption result (2 ^ 64 ≤ value * 10 + digit) (λ n. n ≡ value * 10 + digit) }
{
    value.checked_mul(10)?.checked_add(digit)
}

// The value of the digits that bytes begin with, where it is below 2^64, and how many they are.
#[tactic(auto, using(crate::proofs::Values::digits_stop, crate::proofs::Values::digits_go, crate::proofs::Values::digits_end))]
fn digits(bytes: &[u8]) -> (Option<u64>, usize)
    ensures value { result.0 ≡ below (value_from 0 (digits_of bytes.now)) }
    ensures count { result.1 ≡ length (digits_of bytes.now) }
{
    let mut value = 0u64;
    for (count, byte) in bytes.iter().enumerate() {
        if !byte.is_ascii_digit() {
            return (Some(value), count);
        }
        let Some(next) = with_digit(value, u64::from(byte.saturating_sub(b'0'))) else {
            return (None, digit_count(bytes));
        };
        value = next;
    }
    (Some(value), bytes.len())
}

/// The number that bytes begin with, and how many digits it has: all digits up to the first byte that is none.
///
/// `NotNumber` is answered exactly where these digits are no number, and `TooLarge` exactly where its value is 2^64 or
/// more.
#[tactic(auto, using(crate::proofs::Values::lead_ok, crate::proofs::Values::lead_large, crate::proofs::Values::lead_none))]
pub fn leading_number(bytes: &[u8]) -> (Result<u64, NumberFault>, usize)
    ensures number { result.0 ≡ in_u64 (spec.number (digits_of bytes.now)) }
    ensures count { result.1 ≡ length (digits_of bytes.now) }
{
    let (value, count) = digits(bytes);
    if !is_plain(bytes, count) {
        return (Err(NumberFault::NotNumber), count);
    }
    match value {
        Some(value) => (Ok(value), count),
        None => (Err(NumberFault::TooLarge), count),
    }
}

/// The number that a token spells in decimal digits.
///
/// `NotNumber` is answered exactly where the token has another form, and `TooLarge` exactly where the value is 2^64 or
/// more.
#[tactic(auto, using(crate::proofs::Values::digits_whole, crate::proofs::Values::digits_cut))]
pub fn number(token: &[u8]) -> Result<u64, NumberFault>
    ensures { result ≡ in_u64 (spec.number token.now) }
{
    let (number, count) = leading_number(token);
    if count != token.len() {
        return Err(NumberFault::NotNumber);
    }
    number
}
