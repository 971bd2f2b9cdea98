// Axes and sides as tokens.
ghost use Rattle.std.specs.Prelude.{◌≡◌, Ok};
ghost use Rattle.wt_line.specs.Directions as spec;
ghost use Rattle.wt_line.specs.Faults.{ReadsTokens};
ghost use Rattle.wt_line.specs.Left.{tokens_left};

use crate::faults::LineFault;
use crate::tokens::{Rest, next_token};
use wt_grid::{Axis, Side};

/// An axis, `1` or `2`, and what is left of the line. `Wrong` is answered exactly where the next token is neither.
pub fn axis(rest: Rest<'_>) -> Result<(Axis, Rest<'_>), LineFault>
    ensures { ReadsTokens (λ x. (Ok x.0, tokens_left x.1)) result (spec.axis (tokens_left rest.entry)) }
{
    let Some((token, rest)) = next_token(rest) else {
        return Err(LineFault::Wrong);
    };
    if token == b"1".as_slice() {
        return Ok((Axis::One, rest));
    }
    if token == b"2".as_slice() {
        return Ok((Axis::Two, rest));
    }
    Err(LineFault::Wrong)
}

/// A side, `after` or `before`, and what is left of the line. `Wrong` is answered exactly where the next token is neither.
pub fn side(rest: Rest<'_>) -> Result<(Side, Rest<'_>), LineFault>
    ensures { ReadsTokens (λ x. (Ok x.0, tokens_left x.1)) result (spec.side (tokens_left rest.entry)) }
{
    let Some((token, rest)) = next_token(rest) else {
        return Err(LineFault::Wrong);
    };
    if token == b"after".as_slice() {
        return Ok((Side::After, rest));
    }
    if token == b"before".as_slice() {
        return Ok((Side::Before, rest));
    }
    Err(LineFault::Wrong)
}
