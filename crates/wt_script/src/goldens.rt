// Golden numbers as tokens.
ghost use Rattle.std.specs.Prelude.{◌≡◌, ◌<◌, ◌<ℤ◌, IfSome, SomeIff, option_map, pos, true};
ghost use Rattle.wt_golden.specs.Fractions.{IsWithin};
ghost use Rattle.wt_golden.specs.Parts.{fraction};
ghost use Rattle.wt_line.specs.Left.{tokens_left};
ghost use Rattle.wt_line.specs.Signed as signed;
ghost use Rattle.wt_script.specs.Tokens.{at_colon, golden_token, golden_within, written};
ghost use Rattle.wt_script.specs.Tokens as spec;
ghost use Rattle.wt_text.specs.Words.{value_from};
ghost use Rattle.wt_torus.specs.Codes.{within};

use crate::limits::GOLDEN_LIMIT;
use crate::token::value_below;
use wt_golden::{Golden, Parts};
use wt_io::cut;
use wt_line::{Rest, What, is_signed, next_token, number};

/// What stands before the first colon, and what stands behind it.
#[tactic(auto, using(crate::proofs::Colons::first_colon, crate::proofs::Colons::no_colon))]
fn cut_at_colon(token: &[u8]) -> Option<(&[u8], &[u8])>
    ensures { option_map (λ x. (x.0.now, x.1.now)) result ≡ at_colon token.now }
{
    cut(token, b':')
}

/// Whether a token is a number of at least 1.
fn is_divisor(token: &[u8]) -> bool
    ensures { result ≡ spec.is_divisor token.now }
{
    match number(token) {
        Some(value) => value > 0,
        None => false,
    }
}

/// A number of at least 1, where it is below the limit.
fn divisor_within(token: &[u8]) -> Option<u32>
    requires { spec.is_divisor token.now ≡ true }
    ensures value { SomeIff result (value_from 0 token.now < GOLDEN_LIMIT) (value_from 0 token.now) }
    ensures above { IfSome result (λ d. 0 < d) }
{
    let value = number(token)?;
    if value < u64::from(GOLDEN_LIMIT) {
        Some(value as u32)
    } else {
        None
    }
}

/// The three numbers of a token, where each is below the limit.
fn parts_within(a: &[u8], b: &[u8], d: &[u8]) -> Option<Parts>
    requires a { signed.is_signed a.now ≡ true }
    requires b { signed.is_signed b.now ≡ true }
    requires d { spec.is_divisor d.now ≡ true }
    ensures exact { option_map fraction result ≡ within (written a.now b.now d.now) }
    ensures divisor { IfSome result (λ parts. pos 0 <ℤ parts.d) }
    ensures small { IfSome result (λ parts. IsWithin (fraction parts)) }
{
    let a = value_below(GOLDEN_LIMIT, a)?;
    let b = value_below(GOLDEN_LIMIT, b)?;
    let d = divisor_within(d)?;
    Some(Parts {
        a: i128::from(a),
        b: i128::from(b),
        d: i128::from(d),
    })
}

/// The number in lowest terms, or that a number of its token passes the limit.
fn golden_value(a: &[u8], b: &[u8], d: &[u8]) -> Result<Golden, What>
    requires a { signed.is_signed a.now ≡ true }
    requires b { signed.is_signed b.now ≡ true }
    requires d { spec.is_divisor d.now ≡ true }
    ensures { result ≡ golden_within (written a.now b.now d.now) }
{
    match parts_within(a, b, d) {
        Some(parts) => Ok(Golden::kept(parts)),
        None => Err(What::Golden),
    }
}

/// The number of a token; None where the token has another form.
fn golden_of(token: &[u8]) -> Option<Result<Golden, What>>
    ensures { result ≡ golden_token token.now }
{
    let (a, behind) = cut_at_colon(token)?;
    let (b, d) = cut_at_colon(behind)?;
    if is_signed(a) && is_signed(b) && is_divisor(d) {
        Some(golden_value(a, b, d))
    } else {
        None
    }
}

/// A golden number `a:b:d`, and what is left of the line. None exactly where the next token has another form, or is none.
pub fn golden(rest: Rest<'_>) -> Option<(Result<Golden, What>, Rest<'_>)>
    ensures { option_map (λ x. (x.0, tokens_left x.1)) result ≡ spec.golden (tokens_left rest.entry) }
{
    let Some((token, rest)) = next_token(rest) else {
        return None;
    };
    match golden_of(token) {
        Some(value) => Some((value, rest)),
        None => None,
    }
}
