// Numbers in a line.
ghost use Rattle.std.specs.Prelude.{◌≡◌, ◌≤◌, ◌<◌, ◌∷◌, ℕ, Option, None, Some, length, MatchOption, IfSome, IfOk, OnErr, IsErrOf};
ghost use Rattle.wt_io.specs.Numbers.{digits_of, in_u64};
ghost use Rattle.wt_text.specs.Words.{tokens};
ghost use Rattle.wt_text.specs.Words as words;
ghost use Rattle.wt_text.specs.Readers.{mapped};
ghost use Rattle.wt_text.specs.Readers as readers;
ghost use Rattle.wt_line.specs.declared.faults.LineFault.TheVariants.{OutOfMemory};
ghost use Rattle.wt_line.specs.Given.{left, held, held_number, with_number};
ghost use Rattle.wt_line.specs.Limits.{small};
ghost use Rattle.wt_line.specs.Limits as limits;
ghost use Rattle.wt_line.specs.Left.{tokens_left, room_left, ReadsRest};

use crate::faults::{LineFault, What};
use crate::limits::{MAX_RADIUS, MOST};
use crate::tokens::Rest;
use wt_io::{NumberFault, leading_number};

// A number that was read, saturating at the last value of a `u64`.
fn saturated(number: Result<u64, NumberFault>) -> Option<u64>
    ensures { (read : Option ℕ) → number ≡ in_u64 read → result ≡ held read }
{
    match number {
        Ok(value) => Some(value),
        Err(NumberFault::TooLarge) => Some(u64::MAX),
        Err(NumberFault::NotNumber) => None,
    }
}

/// The number that a token spells, saturating at the last value of a `u64`, so that it may be compared with any limit.
/// None where the token is no number of any size.
pub fn number(token: &[u8]) -> Option<u64>
    ensures { result ≡ held (words.number token.now) }
{
    saturated(wt_io::number(token))
}

// What is left of a line behind the digits that it begins with, where they are its first token.
#[tactic(auto, using(crate::proofs::Digits::token_ends))]
fn behind_digits(line: &[u8], count: usize) -> Option<Rest<'_>>
    requires { count ≡ length (digits_of line.now) }
    ensures first { MatchOption result (held_number (tokens line.now) ≡ None) (λ r. tokens line.now ≡ digits_of line.now ∷ tokens_left r) }
    ensures fewer { IfSome result (λ r. room_left r ≤ length line.now) }
{
    if count == line.len() {
        return Some(Rest {
            line: &line[count..],
            more: false,
        });
    }
    if line[count] != b' ' {
        return None;
    }
    Some(Rest {
        line: &line[count + 1..],
        more: true,
    })
}

/// The number that the next token spells, saturating at the last value of a `u64`, and what is left of the line.
///
/// None exactly where no token is left or the next one is no number of any size.
#[tactic(auto, using(crate::proofs::Digits::number_read, crate::proofs::Digits::number_none))]
pub fn next_number(rest: Rest<'_>) -> Option<(u64, Rest<'_>)>
    ensures read { MatchOption result (held_number (tokens_left rest.entry) ≡ None) (λ x. held_number (tokens_left rest.entry) ≡ Some (x.0, tokens_left x.1)) }
    ensures fewer { IfSome result (λ x. room_left x.1 < room_left rest.entry) }
{
    if !rest.more {
        return None;
    }
    let (number, count) = leading_number(rest.line);
    let behind = behind_digits(rest.line, count)?;
    let value = saturated(number)?;
    Some((value, behind))
}

/// A number with a limit, and what is left of the line: within it the number, past it the word of the limit.
///
/// `Wrong` is answered exactly where no token is left or the next one is no number.
#[tactic(auto, using(crate::proofs::Held::no_number_to, crate::proofs::Held::number_within, crate::proofs::Held::number_past))]
pub fn number_to(
    most: u32,
    what: What,
    rest: Rest<'_>,
) -> Result<(Result<u32, What>, Rest<'_>), LineFault>
    ensures within { IfOk result (λ x. IfOk x.0 (λ n. n ≤ most)) }
    ensures fewer { IfOk result (λ x. room_left x.1 < room_left rest.entry) }
    ensures read { ReadsRest (readers.number_to most what) result rest.entry }
{
    let Some((value, rest)) = next_number(rest) else {
        return Err(LineFault::Wrong);
    };
    if value <= u64::from(most) {
        Ok((Ok(value as u32), rest))
    } else {
        Ok((Err(what), rest))
    }
}

/// A number that has no limit of its own, and what is left of the line: at most `MOST`, past it the word `number`.
///
/// `Wrong` is answered exactly where no token is left or the next one is no number.
pub fn small_number(rest: Rest<'_>) -> Result<(Result<u16, What>, Rest<'_>), LineFault>
    ensures fewer { IfOk result (λ x. room_left x.1 < room_left rest.entry) }
    ensures read { ReadsRest small result rest.entry }
{
    let (value, rest) = number_to(u32::from(MOST), What::Number, rest)?;
    match value {
        Ok(value) => Ok((Ok(value as u16), rest)),
        Err(what) => Ok((Err(what), rest)),
    }
}

/// A radius, and what is left of the line: at most `MAX_RADIUS`, past it the word `radius`.
///
/// `Wrong` is answered exactly where no token is left or the next one is no number.
pub fn radius(rest: Rest<'_>) -> Result<(Result<u8, What>, Rest<'_>), LineFault>
    ensures within { IfOk result (λ x. IfOk x.0 (λ r. r ≤ MAX_RADIUS)) }
    ensures read { ReadsRest limits.radius result rest.entry }
{
    let (value, rest) = number_to(u32::from(MAX_RADIUS), What::Radius, rest)?;
    match value {
        Ok(value) => Ok((Ok(value as u8), rest)),
        Err(what) => Ok((Err(what), rest)),
    }
}

/// A number of at least 1 with a limit, and what is left of the line: within it the number, past it the word of the
/// limit.
///
/// `Wrong` is answered exactly where no token is left, or the next one is no number or is 0.
#[tactic(auto, using(crate::proofs::Held::none_from_one, crate::proofs::Held::zero_from_one, crate::proofs::Held::from_one_within, crate::proofs::Held::from_one_past))]
pub fn number_from_one(
    most: u32,
    what: What,
    rest: Rest<'_>,
) -> Result<(Result<u32, What>, Rest<'_>), LineFault>
    ensures within { IfOk result (λ x. IfOk x.0 (λ n. (1 ≤ n) × (n ≤ most))) }
    ensures read { ReadsRest (limits.number_from_one most what) result rest.entry }
{
    let Some((value, rest)) = next_number(rest) else {
        return Err(LineFault::Wrong);
    };
    if value == 0 {
        return Err(LineFault::Wrong);
    }
    if value > u64::from(most) {
        return Ok((Err(what), rest));
    }
    Ok((Ok(value as u32), rest))
}

/// One number more behind those before it; else the limit that the first of them has passed.
pub fn and_number(
    front: Result<Vec<u16>, What>,
    number: Result<u16, What>,
) -> Result<Result<Vec<u16>, What>, LineFault>
    ensures value { IfOk result (λ r. mapped (λ v. v.items) r ≡ with_number (mapped (λ v. v.items) front) number) }
    ensures fault { OnErr result (IsErrOf result OutOfMemory) }
{
    match front {
        Err(what) => Ok(Err(what)),
        Ok(mut numbers) => match number {
            Err(what) => Ok(Err(what)),
            Ok(number) => {
                numbers.push(number)?;
                Ok(Ok(numbers))
            }
        },
    }
}
