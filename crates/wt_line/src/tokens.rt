// The tokens of a line.
ghost use Rattle.std.specs.Prelude.{◌≡◌, ◌∷◌, [], MatchOption, MatchResult, IfSome, ◌≤◌, ◌<◌, length};
ghost use Rattle.wt_text.specs.Words.{tokens};
ghost use Rattle.wt_text.specs.Readers.{after};
ghost use Rattle.wt_line.specs.Given.{left};
ghost use Rattle.wt_line.specs.Faults.{ReadsTokens, IsWrong};
ghost use Rattle.wt_line.specs.Left.{tokens_left, room_left};

use crate::faults::LineFault;
use wt_io::cut;

/// The tokens of a line that are left: those of its last part, or none.
#[derive(Clone, Copy, Debug)]
pub struct Rest<'a> {
    /// The last part of the line, which holds the tokens that are left.
    pub line: &'a [u8],
    /// Whether any token is left. An empty part still has one, which is empty.
    pub more: bool,
}

impl<'a> Rest<'a> {
    /// All tokens of a line.
    pub fn new(line: &'a [u8]) -> Rest<'a>
        ensures { tokens_left result ≡ tokens line.now }
    {
        Rest { line, more: true }
    }
}

// The first token of a line, and what is left behind it.
#[tactic(auto, using(wt_io::proofs::Cuts::first_of_tokens, wt_io::proofs::Cuts::one_token))]
fn first_part(line: &[u8]) -> (&[u8], Rest<'_>)
    ensures first { tokens line.now ≡ result.0.now ∷ tokens_left result.1 }
    ensures fewer { room_left result.1 ≤ length line.now }
{
    match cut(line, b' ') {
        Some((token, line)) => (token, Rest { line, more: true }),
        None => (
            line,
            Rest {
                line: &line[line.len()..],
                more: false,
            },
        ),
    }
}

/// The next token, and the tokens behind it; None exactly where none is left.
pub fn next_token(rest: Rest<'_>) -> Option<(&[u8], Rest<'_>)>
    ensures first { MatchOption result (tokens_left rest.entry ≡ []) (λ x. tokens_left rest.entry ≡ x.0.now ∷ tokens_left x.1) }
    ensures fewer { IfSome result (λ x. room_left x.1 < room_left rest.entry) }
{
    if rest.more {
        Some(first_part(rest.line))
    } else {
        None
    }
}

/// The tokens behind a word. `Wrong` is answered exactly where the next token is not this word.
pub fn word<'a>(word: &str, rest: Rest<'a>) -> Result<Rest<'a>, LineFault>
    ensures { ReadsTokens tokens_left result (after word.now (tokens_left rest.entry)) }
{
    let Some((token, rest)) = next_token(rest) else {
        return Err(LineFault::Wrong);
    };
    if token == word.as_bytes() {
        Ok(rest)
    } else {
        Err(LineFault::Wrong)
    }
}

/// Nothing is left of a line. `Wrong` is answered exactly where a token is.
pub fn line_end(rest: Rest<'_>) -> Result<(), LineFault>
    ensures { MatchResult result (λ _. tokens_left rest.entry ≡ []) (λ e. IsWrong e (tokens_left rest.entry)) }
{
    if rest.more {
        Err(LineFault::Wrong)
    } else {
        Ok(())
    }
}
