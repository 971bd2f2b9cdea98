// A number that is known.
ghost use Rattle.std.specs.Prelude.{◌≡◌};
ghost use Rattle.std.specs.Fmt.{decimal};
ghost use Rattle.wt_line.specs.Faults.{ReadsTokens};
ghost use Rattle.wt_line.specs.Left.{tokens_left};
ghost use Rattle.wt_text.specs.Readers.{after};

use wt_line::{LineFault, Rest, next_token, number};

/// What stands behind this number.
#[tactic(auto, using(crate::proofs::Literals::same_number, crate::proofs::Literals::other_number))]
pub fn this_number(n: u32, rest: Rest<'_>) -> Result<Rest<'_>, LineFault>
    ensures { ReadsTokens tokens_left result (after (decimal n) (tokens_left rest.entry)) }
{
    let Some((token, rest)) = next_token(rest) else {
        return Err(LineFault::Wrong);
    };
    if number(token) == Some(u64::from(n)) {
        Ok(rest)
    } else {
        Err(LineFault::Wrong)
    }
}
