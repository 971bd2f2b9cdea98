// The lines of a text.
ghost use Rattle.std.specs.Prelude.{◌≡◌, ◌∷◌, [], ◌+◌, ◌<◌, length, MatchOption, IfSome};
ghost use Rattle.wt_text.specs.Lines.{lines};

use crate::cutting::cut;
use std::marker::Model;

/// One line of a text.
#[derive(Clone, Copy)]
pub struct Line<'a> {
    /// Its number, counted from 1.
    pub number: usize,
    /// Its bytes, without the newline.
    pub text: &'a [u8],
    /// Whether a newline ends it. Only the last part of a text may have none.
    pub ended: bool,
}

/// The lines of a text that are left, from left to right.
///
/// It is seen as the bytes that were not given yet, and the number of their first line.
#[derive(Drop)]
pub struct Lines<'a> {
    bytes: &'a [u8],
    number: usize,
}

impl<'a> Model for Lines<'a> {
    ghost use Rattle.std.specs.Prelude.{length, ◌≤◌, ◌+◌, ◌-◌, ◌^◌};
    ghost use Rattle.wt_io.specs.Unread.{Unread};

    ghost Value = { Unread };

    ghost view = { λ l. record { bytes = l.bytes.now; number = l.number } };

    ghost invariant = { λ l. l.number + length l.bytes.now ≤ 2 ^ 64 - 1 };
}

impl<'a> Lines<'a> {
    /// All lines of a text.
    pub fn new(bytes: &'a [u8]) -> Lines<'a>
        ensures { result ≡ record { bytes = bytes.now; number = 1 } }
    {
        Lines { bytes, number: 1 }
    }

    /// The next line; None exactly where all bytes were given.
    pub fn next(&mut self) -> Option<Line<'a>>
        ensures line { MatchOption result (self.old.bytes ≡ []) (λ l. lines self.old.bytes ≡ record { text = l.text.now; ended = l.ended } ∷ lines self.new.bytes) }
        ensures number { IfSome result (λ l. (l.number ≡ self.old.number) × (self.new.number ≡ self.old.number + 1)) }
        ensures none { MatchOption result (self.new ≡ self.old) (λ l. Unit {0}) }
    {
        if self.bytes.is_empty() {
            return None;
        }
        let (line, bytes) = first_line(self.bytes, self.number);
        self.bytes = bytes;
        self.number += 1;
        Some(line)
    }
}

// The first line of a text that has one, and the bytes behind it.
#[tactic(auto, using(crate::proofs::Cuts::first_of_lines, crate::proofs::Cuts::only_line))]
fn first_line(bytes: &[u8], number: usize) -> (Line<'_>, &[u8])
    requires { 0 < length bytes.now }
    ensures line { lines bytes.now ≡ record { text = result.0.text.now; ended = result.0.ended } ∷ lines result.1.now }
    ensures number { result.0.number ≡ number }
    ensures fewer { length result.1.now < length bytes.now }
{
    match cut(bytes, b'\n') {
        Some((text, behind)) => (
            Line {
                number,
                text,
                ended: true,
            },
            behind,
        ),
        None => (
            Line {
                number,
                text: bytes,
                ended: false,
            },
            &bytes[bytes.len()..],
        ),
    }
}
