// Commands on patterns, and JSON.
ghost use Rattle.std.specs.Prelude.{◌≡◌, IfOk};
ghost use Rattle.wt_text.specs.Words.{tokens};
ghost use Rattle.wt_line.specs.Faults.{ReadsLine};
ghost use Rattle.wt_line.specs.Left.{ReadsPlace};
ghost use Rattle.wt_script.specs.Forms.{draw_form};
ghost use Rattle.wt_script.specs.Parts.{draw_part, json_part, period_part, valid_part};
ghost use Rattle.wt_script.specs.Fits.{Fits};

use crate::rows::{named_row, vector_row};
use crate::token::{name, owned, style};
use crate::word::Word;
use std::alloc::Global;
use wt_line::{LineFault, Place, Rest, TextFault, line_end, next_line, placed, word};
use wt_pattern::Style;

/// `valid P`.
#[tactic(auto, unfolding(crate::specs::Parts::valid_part, wt_text::specs::Readers::one_line, wt_text::specs::Readers::seen_as))]
pub fn valid_at(alloc: Global, place: Place<'_>) -> Result<(Word, Place<'_>), TextFault>
    ensures read { ReadsPlace valid_part result place.entry }
    ensures fits { IfOk result (λ x. Fits x.0) }
{
    let (line, next) = next_line(place)?;
    let pattern = placed(named_row("valid", line), place.number)?;
    let word = Word::Valid {
        pattern: owned(alloc, pattern)?,
    };
    Ok((word, next))
}

/// `period P x y`.
#[tactic(auto, unfolding(crate::specs::Parts::period_part, wt_text::specs::Readers::one_line, wt_text::specs::Readers::seen_as))]
pub fn period_at(alloc: Global, place: Place<'_>) -> Result<(Word, Place<'_>), TextFault>
    ensures read { ReadsPlace period_part result place.entry }
    ensures fits { IfOk result (λ x. Fits x.0) }
{
    let (line, next) = next_line(place)?;
    let (pattern, dx, dy) = placed(vector_row("period", line), place.number)?;
    let word = Word::Period {
        pattern: owned(alloc, pattern)?,
        dx,
        dy,
    };
    Ok((word, next))
}

#[tactic(auto, using(wt_line::proofs::Ended::goes_on_is_wrong), unfolding(crate::specs::Forms::draw_form, wt_text::specs::Readers::whole, wt_text::specs::Readers::value_behind, wt_text::specs::Readers::both))]
fn draw_row(line: &[u8]) -> Result<(&[u8], Style), LineFault>
    ensures read { ReadsLine (λ x. (x.0.now, x.1)) result (draw_form (tokens line.now)) }
{
    let rest = word("draw", Rest::new(line))?;
    let (pattern, rest) = name(rest)?;
    let (style, rest) = style(rest)?;
    line_end(rest)?;
    Ok((pattern, style))
}

/// `draw P numbers or draw P boxes`.
#[tactic(auto, unfolding(crate::specs::Parts::draw_part, wt_text::specs::Readers::one_line, wt_text::specs::Readers::seen_as))]
pub fn draw_at(alloc: Global, place: Place<'_>) -> Result<(Word, Place<'_>), TextFault>
    ensures read { ReadsPlace draw_part result place.entry }
    ensures fits { IfOk result (λ x. Fits x.0) }
{
    let (line, next) = next_line(place)?;
    let (pattern, style) = placed(draw_row(line), place.number)?;
    let word = Word::Draw {
        pattern: owned(alloc, pattern)?,
        style,
    };
    Ok((word, next))
}

/// `json M`.
#[tactic(auto, unfolding(crate::specs::Parts::json_part, wt_text::specs::Readers::one_line, wt_text::specs::Readers::seen_as))]
pub fn json_at(alloc: Global, place: Place<'_>) -> Result<(Word, Place<'_>), TextFault>
    ensures read { ReadsPlace json_part result place.entry }
    ensures fits { IfOk result (λ x. Fits x.0) }
{
    let (line, next) = next_line(place)?;
    let value = placed(named_row("json", line), place.number)?;
    let word = Word::Json {
        value: owned(alloc, value)?,
    };
    Ok((word, next))
}
