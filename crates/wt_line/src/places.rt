// The lines of a text.
ghost use Rattle.std.specs.Prelude.{◌≡◌, ◌∷◌, ◌+◌, ◌≤◌, ◌^◌, ◌-◌, length, true, MatchOption, MatchResult, IfSome, IfOk};
ghost use Rattle.wt_text.specs.Lines.{lines};
ghost use Rattle.wt_line.specs.Faults.{NoLine, IsSyntax, ended_line};

use crate::faults::TextFault;
use wt_io::cut;

/// The lines of a text that are left, and the number of the next.
#[derive(Clone, Copy, Debug)]
pub struct Place<'a> {
    /// The bytes of the lines that are left.
    pub bytes: &'a [u8],
    /// The number of the first of these lines, counted from 1.
    pub number: usize,
    pub ghost within: { number + length bytes.now ≤ 2 ^ 64 - 1 },
}

impl<'a> Place<'a> {
    /// The start of a text.
    pub fn new(bytes: &'a [u8]) -> Place<'a>
        ensures bytes { result.bytes.now ≡ bytes.now }
        ensures number { result.number ≡ 1 }
    {
        Place { bytes, number: 1 }
    }
}

/// The next line, which a newline ends, and the place behind it.
///
/// `Syntax` at the number of the place is answered exactly where no such line is left: at the end of the text, and before a
/// last part without its newline.
#[tactic(auto, using(wt_io::proofs::Cuts::first_of_lines, crate::proofs::Starts::no_line))]
pub fn next_line(place: Place<'_>) -> Result<(&[u8], Place<'_>), TextFault>
    ensures line { MatchResult result (λ x. lines place.entry.bytes.now ≡ ended_line x.0.now ∷ lines x.1.bytes.now) (λ e. IsSyntax place.entry.number e (lines place.entry.bytes.now)) }
    ensures number { IfOk result (λ x. x.1.number ≡ place.entry.number + 1) }
{
    match cut(place.bytes, b'\n') {
        Some((line, bytes)) => Ok((
            line,
            Place {
                bytes,
                number: place.number + 1,
            },
        )),
        None => Err(TextFault::Syntax { line: place.number }),
    }
}
