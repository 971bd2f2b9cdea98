// Lists of numbers in a line.
ghost use Rattle.std.specs.Prelude.{◌≡◌, ◌≤◌, ◌+◌, ◌<◌, [], IfOk, length};
ghost use Rattle.wt_line.specs.declared.faults.What.TheVariants.{Tiles, Number};
ghost use Rattle.wt_line.specs.Faults.{ReadsTokens, ReadsLine};
ghost use Rattle.wt_text.specs.Words.{tokens};
ghost use Rattle.wt_text.specs.Readers.{mapped, numbers_to};
ghost use Rattle.wt_text.specs.Readers as spec;
ghost use Rattle.wt_cert.specs.LineForms.{numbers_form};
ghost use Rattle.wt_line.specs.Left.{tokens_left};

use std::alloc::Global;
use wt_grid::MAX_TILES;
use wt_line::{LineFault, MOST, Rest, What, and_number, next_token, number, small_number, word};

/// The numbers to the end of a line, and how many they are.
fn numbers_to_end(alloc: Global, rest: Rest<'_>) -> Result<(Result<Vec<u16>, What>, u64), LineFault>
    ensures read { ReadsTokens (λ x. mapped (λ v. v.items) x.0) result (numbers_to MOST Number (tokens_left rest.entry)) }
    ensures count { IfOk result (λ x. x.1 ≡ length (tokens_left rest.entry)) }
{
    let mut numbers = Ok(Vec::new(alloc));
    let mut count = 0u64;
    let mut rest = rest;
    while rest.more {
        let (number, after) = small_number(rest)?;
        numbers = and_number(numbers, number)?;
        count += 1;
        rest = after;
    }
    Ok((numbers, count))
}

/// A count, and n numbers to the end of the line.
fn counted_numbers(alloc: Global, rest: Rest<'_>) -> Result<Result<Vec<u16>, What>, LineFault>
    ensures { ReadsTokens (λ x. (mapped (λ v. v.items) x, [])) result (spec.counted_numbers MAX_TILES Tiles MOST Number (tokens_left rest.entry)) }
{
    let Some((token, rest)) = next_token(rest) else {
        return Err(LineFault::Wrong);
    };
    let Some(many) = number(token) else {
        return Err(LineFault::Wrong);
    };
    let (numbers, count) = numbers_to_end(alloc, rest)?;
    if count != many {
        return Err(LineFault::Wrong);
    }
    if many > MAX_TILES as u64 {
        return Ok(Err(What::Tiles));
    }
    Ok(numbers)
}

/// A word, a count, and n numbers, as `markers m t1 .. tm`.
#[tactic(auto, unfolding(crate::specs::LineForms::numbers_form, wt_text::specs::Readers::whole, wt_text::specs::Readers::value_behind))]
pub fn numbers_row(alloc: Global, name: &str, line: &[u8]) -> Result<Vec<u16>, LineFault>
    ensures { ReadsLine (λ v. v.items) result (numbers_form name.now (tokens line.now)) }
{
    let rest = word(name, Rest::new(line))?;
    let numbers = counted_numbers(alloc, rest)?;
    Ok(numbers?)
}
