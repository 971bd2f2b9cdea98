// The tokens of a line.
ghost use Rattle.std.specs.Prelude.{◌≡◌, ◌∷◌, [], ◌+◌, ◌≤◌, length, MatchOption, IfSome, slice_range};
ghost use Rattle.wt_text.specs.Words.{tokens};
ghost use Rattle.wt_io.specs.Unread.{tokens_left};

use crate::cutting::cut;
use std::marker::Model;

/// Where a token stands in its line: from `start`, and before `end`.
#[derive(Clone, Copy, Debug, PartialEq, Eq)]
pub struct Token {
    /// The place of its first byte.
    pub start: usize,
    /// The place behind its last byte.
    pub end: usize,
}

/// The tokens of a line that are left, from left to right: the parts between single spaces, so that a doubled space
/// gives an empty token.
///
/// It is seen as the line, and the place where the next token starts. Behind the last token that place is past the
/// line's end.
#[derive(Drop)]
pub struct Tokens<'a> {
    line: &'a [u8],
    at: usize,
}

impl<'a> Model for Tokens<'a> {
    ghost use Rattle.wt_io.specs.Unread.{Unsplit};

    ghost Value = { Unsplit };

    ghost view = { λ t. record { line = t.line.now; at = t.at } };

    ghost invariant = { λ t. Unit {0} };
}

impl<'a> Tokens<'a> {
    /// All tokens of a line.
    pub fn new(line: &'a [u8]) -> Tokens<'a>
        ensures { result ≡ record { line = line.now; at = 0 } }
    {
        Tokens { line, at: 0 }
    }

    /// The next token; None exactly behind the last.
    pub fn next(&mut self) -> Option<Token>
        ensures token { MatchOption result (tokens_left self.old ≡ []) (λ t. tokens_left self.old ≡ slice_range self.old.line t.start t.end ∷ tokens_left self.new) }
        ensures place { IfSome result (λ t. (t.start ≡ self.old.at) × (t.start ≤ t.end) × (t.end ≤ length self.old.line) × (self.new.at ≡ t.end + 1)) }
        ensures line { self.new.line ≡ self.old.line }
        ensures none { MatchOption result (self.new ≡ self.old) (λ t. Unit {0}) }
    {
        if self.at > self.line.len() {
            return None;
        }
        let start = self.at;
        let end = token_end(self.line, start);
        self.at = end + 1;
        Some(Token { start, end })
    }
}

// Where the token ends that starts at a place of a line.
#[tactic(auto, using(crate::proofs::Cuts::token_at, crate::proofs::Cuts::last_token_at))]
fn token_end(line: &[u8], start: usize) -> usize
    requires { start ≤ length line.now }
    ensures token { tokens_left (record { line = line.now; at = start }) ≡ slice_range line.now start result ∷ tokens_left (record { line = line.now; at = result + 1 }) }
    ensures behind { start ≤ result }
    ensures within { result ≤ length line.now }
{
    match cut(&line[start..], b' ') {
        Some((token, _)) => start + token.len(),
        None => line.len(),
    }
}
