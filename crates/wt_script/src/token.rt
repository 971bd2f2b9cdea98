// The tokens of a script's lines.
ghost use Rattle.std.specs.Prelude.{◌≡◌, ◌≤◌, ◌<◌, ◌^◌, IfOk, SomeIff, Ok, true, length, unsigned_abs};
ghost use Rattle.wt_line.specs.Signed.{signed_value};
ghost use Rattle.wt_line.specs.Signed as signed;
ghost use Rattle.wt_line.specs.Faults.{ReadsTokens};
ghost use Rattle.wt_line.specs.Left.{tokens_left, ReadsRest};
ghost use Rattle.wt_script.specs.Tokens as spec;

use crate::limits::{MAX_AXES, MAX_NAME, PLANE_LIMIT};
use std::alloc::{AllocError, Global};
use wt_grid::Axis;
use wt_io::NumberFault;
use wt_line::{LineFault, Rest, What, is_signed, next_token, signed_number};
use wt_pattern::Style;
use wt_seq::Seq;

fn is_letter(byte: u8) -> bool
    ensures { result ≡ spec.is_letter byte }
{
    byte >= b'a' && byte <= b'z'
}

fn is_name_byte(byte: u8) -> bool
    ensures { result ≡ spec.is_name_byte byte }
{
    is_letter(byte) || (byte >= b'0' && byte <= b'9') || byte == b'_'
}

fn all_name_bytes(bytes: &[u8]) -> bool
    ensures { result ≡ spec.all_name_bytes bytes.now }
{
    for byte in bytes {
        if !is_name_byte(*byte) {
            return false;
        }
    }
    true
}

fn is_name(token: &[u8]) -> bool
    ensures { result ≡ spec.is_name token.now }
{
    let [first, others @ ..] = token else {
        return false;
    };
    others.len() < MAX_NAME && is_letter(*first) && all_name_bytes(others)
}

/// A name of the script.
pub fn name(rest: Rest<'_>) -> Result<(&[u8], Rest<'_>), LineFault>
    ensures { ReadsTokens (λ x. (Ok x.0.now, tokens_left x.1)) result (spec.name (tokens_left rest.entry)) }
{
    let Some((token, rest)) = next_token(rest) else {
        return Err(LineFault::Wrong);
    };
    if is_name(token) {
        Ok((token, rest))
    } else {
        Err(LineFault::Wrong)
    }
}

/// Bytes of its own.
pub fn owned(alloc: Global, bytes: &[u8]) -> Result<Seq<u8>, AllocError>
    ensures { IfOk result (λ list. list ≡ bytes.now) }
{
    Ok(Seq::new(bytes.to_vec(alloc)?))
}

/// A number below 2^64.
pub fn large(rest: Rest<'_>) -> Result<(Result<u64, What>, Rest<'_>), LineFault>
    ensures { ReadsRest spec.large result rest.entry }
{
    let Some((token, rest)) = next_token(rest) else {
        return Err(LineFault::Wrong);
    };
    match wt_io::number(token) {
        Ok(value) => Ok((Ok(value), rest)),
        Err(NumberFault::TooLarge) => Ok((Err(What::Number), rest)),
        Err(NumberFault::NotNumber) => Err(LineFault::Wrong),
    }
}

/// A signed number below a limit in absolute value; None where it is not below it.
pub fn value_below(limit: u32, token: &[u8]) -> Option<i64>
    requires { signed.is_signed token.now ≡ true }
    ensures { SomeIff result (unsigned_abs (signed_value token.now) < limit) (signed_value token.now) }
{
    let value = signed_number(token)?;
    if value.unsigned_abs() < u64::from(limit) {
        Some(value)
    } else {
        None
    }
}

/// A number of a half-plane.
pub fn plane_number(rest: Rest<'_>) -> Result<(Result<i64, What>, Rest<'_>), LineFault>
    ensures read { ReadsRest spec.plane_number result rest.entry }
    ensures within { IfOk result (λ x. IfOk x.0 (λ z. unsigned_abs z < PLANE_LIMIT)) }
{
    let Some((token, rest)) = next_token(rest) else {
        return Err(LineFault::Wrong);
    };
    if !is_signed(token) {
        return Err(LineFault::Wrong);
    }
    match value_below(PLANE_LIMIT, token) {
        Some(value) => Ok((Ok(value), rest)),
        None => Ok((Err(What::Number), rest)),
    }
}

/// A component of a vector.
pub fn component(rest: Rest<'_>) -> Result<(Result<i64, What>, Rest<'_>), LineFault>
    ensures read { ReadsRest spec.component result rest.entry }
    ensures within { IfOk result (λ x. IfOk x.0 (λ z. unsigned_abs z < 2 ^ 63)) }
{
    let Some((token, rest)) = next_token(rest) else {
        return Err(LineFault::Wrong);
    };
    if !is_signed(token) {
        return Err(LineFault::Wrong);
    }
    match signed_number(token) {
        Some(value) => Ok((Ok(value), rest)),
        None => Ok((Err(What::Number), rest)),
    }
}

/// A style, `numbers` or `boxes`.
pub fn style(rest: Rest<'_>) -> Result<(Style, Rest<'_>), LineFault>
    ensures { ReadsTokens (λ x. (Ok x.0, tokens_left x.1)) result (spec.style (tokens_left rest.entry)) }
{
    let Some((token, rest)) = next_token(rest) else {
        return Err(LineFault::Wrong);
    };
    if token == b"numbers".as_slice() {
        return Ok((Style::Numbers, rest));
    }
    if token == b"boxes".as_slice() {
        return Ok((Style::Boxes, rest));
    }
    Err(LineFault::Wrong)
}

/// The axes that the digits of a token say.
#[tactic(auto, using(crate::proofs::Axes::begins, crate::proofs::Axes::first_axis, crate::proofs::Axes::second_axis, crate::proofs::Axes::no_axis, crate::proofs::Axes::all_read))]
fn axes_of(alloc: Global, token: &[u8]) -> Result<Vec<Axis>, LineFault>
    ensures read { ReadsTokens (λ list. list.items) result (spec.axes_of token.now) }
    ensures count { IfOk result (λ list. length list.items ≡ length token.now) }
{
    let mut axes = Vec::new(alloc);
    for byte in token {
        if *byte == b'1' {
            axes.push(Axis::One)?;
        } else if *byte == b'2' {
            axes.push(Axis::Two)?;
        } else {
            return Err(LineFault::Wrong);
        }
    }
    Ok(axes)
}

/// 1 to 8 axes in one token.
pub fn axes(alloc: Global, rest: Rest<'_>) -> Result<(Seq<Axis>, Rest<'_>), LineFault>
    ensures read { ReadsTokens (λ x. (Ok x.0, tokens_left x.1)) result (spec.axes_word (tokens_left rest.entry)) }
    ensures within { IfOk result (λ x. (1 ≤ length x.0) × (length x.0 ≤ MAX_AXES)) }
{
    let Some((token, rest)) = next_token(rest) else {
        return Err(LineFault::Wrong);
    };
    if token.is_empty() || token.len() > MAX_AXES {
        return Err(LineFault::Wrong);
    }
    Ok((Seq::new(axes_of(alloc, token)?), rest))
}
