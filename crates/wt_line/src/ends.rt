// The end of a text.
ghost use Rattle.std.specs.Prelude.{◌≡◌, [], MatchResult};
ghost use Rattle.wt_text.specs.Lines.{lines};
ghost use Rattle.wt_line.specs.Faults.{IsMore};

use crate::faults::TextFault;
use crate::places::Place;

/// Whether a text ends here: any byte more is a syntax fault at the number of its line.
pub fn text_end(place: Place<'_>) -> Result<(), TextFault>
    ensures { MatchResult result (λ _. lines place.entry.bytes.now ≡ []) (λ e. IsMore place.entry.number e (lines place.entry.bytes.now)) }
{
    if place.bytes.is_empty() {
        Ok(())
    } else {
        Err(TextFault::Syntax { line: place.number })
    }
}
