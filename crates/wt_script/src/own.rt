// Commands with lines of their own.
ghost use Rattle.std.specs.Prelude.{◌≡◌, ◌≤◌, IfOk};
ghost use Rattle.wt_text.specs.Words.{tokens};
ghost use Rattle.wt_text.specs.Readers.{one_line};
ghost use Rattle.wt_line.specs.Faults.{ReadsLine, ReadsText};
ghost use Rattle.wt_line.specs.Left.{lines_left, ReadsPlace};
ghost use Rattle.wt_script.specs.Forms.{tiles_form, pattern_form, check_form};
ghost use Rattle.wt_script.specs.Parts.{tiles_part, pattern_part, check_part};
ghost use Rattle.wt_script.specs.Fits.{Fits};

use crate::raw::raw_at;
use crate::token::{large, name, owned};
use crate::word::Word;
use std::alloc::Global;
use wt_grid::{MAX_SIDE, MAX_TILES};
use wt_line::{
    LineFault, Place, Rest, TextFault, What, line_end, next_line, number_from_one, number_to,
    placed, word,
};
use wt_pattern::{pattern_rows_at, tiles_at};

#[tactic(auto, using(wt_line::proofs::Ended::goes_on_is_wrong), unfolding(crate::specs::Forms::tiles_form, wt_text::specs::Readers::whole, wt_text::specs::Readers::value_behind, wt_text::specs::Readers::both))]
fn tiles_row(line: &[u8]) -> Result<(&[u8], u32), LineFault>
    ensures read { ReadsLine (λ x. (x.0.now, x.1)) result (tiles_form (tokens line.now)) }
    ensures within { IfOk result (λ x. x.1 ≤ MAX_TILES) }
{
    let rest = word("tiles", Rest::new(line))?;
    let (bound, rest) = name(rest)?;
    let (count, rest) = number_to(MAX_TILES as u32, What::Tiles, rest)?;
    line_end(rest)?;
    Ok((bound, count?))
}

#[tactic(auto, unfolding(wt_text::specs::Readers::one_line))]
fn tiles_head(place: Place<'_>) -> Result<((&[u8], u32), Place<'_>), TextFault>
    ensures read { ReadsText (λ x. ((x.0.0.now, x.0.1), lines_left x.1)) result (one_line tiles_form (lines_left place.entry)) }
    ensures within { IfOk result (λ x. x.0.1 ≤ MAX_TILES) }
{
    let (line, next) = next_line(place)?;
    let head = placed(tiles_row(line), place.number)?;
    Ok((head, next))
}

/// `tiles N n`, and n tiles.
#[tactic(auto, unfolding(crate::specs::Parts::tiles_part, wt_text::specs::Readers::part_by, wt_text::specs::Readers::seen_as))]
pub fn set_at(alloc: Global, place: Place<'_>) -> Result<(Word, Place<'_>), TextFault>
    ensures read { ReadsPlace tiles_part result place.entry }
    ensures fits { IfOk result (λ x. Fits x.0) }
{
    let ((bound, count), place) = tiles_head(place)?;
    let (list, place) = tiles_at(alloc, count as usize, place)?;
    let word = Word::Tiles {
        name: owned(alloc, bound)?,
        list,
    };
    Ok((word, place))
}

#[tactic(auto, using(wt_line::proofs::Ended::goes_on_is_wrong), unfolding(crate::specs::Forms::pattern_form, wt_text::specs::Readers::whole, wt_text::specs::Readers::value_behind, wt_text::specs::Readers::both))]
fn pattern_row(line: &[u8]) -> Result<(&[u8], &[u8], u32, u32), LineFault>
    ensures read { ReadsLine (λ x. (x.0.now, (x.1.now, (x.2, x.3)))) result (pattern_form (tokens line.now)) }
    ensures within { IfOk result (λ x. (1 ≤ x.2) × (x.2 ≤ MAX_SIDE) × (1 ≤ x.3) × (x.3 ≤ MAX_SIDE)) }
{
    let rest = word("pattern", Rest::new(line))?;
    let (bound, rest) = name(rest)?;
    let (set, rest) = name(rest)?;
    let (width, rest) = number_from_one(MAX_SIDE as u32, What::Width, rest)?;
    let (height, rest) = number_from_one(MAX_SIDE as u32, What::Height, rest)?;
    line_end(rest)?;
    Ok((bound, set, width?, height?))
}

#[tactic(auto, unfolding(wt_text::specs::Readers::one_line))]
fn pattern_head(place: Place<'_>) -> Result<((&[u8], &[u8], u32, u32), Place<'_>), TextFault>
    ensures read { ReadsText (λ x. ((x.0.0.now, (x.0.1.now, (x.0.2, x.0.3))), lines_left x.1)) result (one_line pattern_form (lines_left place.entry)) }
    ensures within { IfOk result (λ x. (1 ≤ x.0.2) × (x.0.2 ≤ MAX_SIDE) × (1 ≤ x.0.3) × (x.0.3 ≤ MAX_SIDE)) }
{
    let (line, next) = next_line(place)?;
    let head = placed(pattern_row(line), place.number)?;
    Ok((head, next))
}

/// `pattern N S w h`, and h rows.
#[tactic(auto, unfolding(crate::specs::Parts::pattern_part, wt_text::specs::Readers::part_by, wt_text::specs::Readers::seen_as))]
pub fn pattern_at(alloc: Global, place: Place<'_>) -> Result<(Word, Place<'_>), TextFault>
    ensures read { ReadsPlace pattern_part result place.entry }
    ensures fits { IfOk result (λ x. Fits x.0) }
{
    let ((bound, set, width, height), place) = pattern_head(place)?;
    let (cells, place) = pattern_rows_at(alloc, width as usize, height as usize, place)?;
    let word = Word::Pattern {
        name: owned(alloc, bound)?,
        set: owned(alloc, set)?,
        cells,
    };
    Ok((word, place))
}

#[tactic(auto, using(wt_line::proofs::Ended::goes_on_is_wrong), unfolding(crate::specs::Forms::check_form, wt_text::specs::Readers::whole, wt_text::specs::Readers::value_behind, wt_text::specs::Readers::both))]
fn check_row(line: &[u8]) -> Result<(&[u8], u64), LineFault>
    ensures { ReadsLine (λ x. (x.0.now, x.1)) result (check_form (tokens line.now)) }
{
    let rest = word("check", Rest::new(line))?;
    let (bound, rest) = name(rest)?;
    let (count, rest) = large(rest)?;
    line_end(rest)?;
    Ok((bound, count?))
}

#[tactic(auto, unfolding(wt_text::specs::Readers::one_line))]
fn check_head(place: Place<'_>) -> Result<((&[u8], u64), Place<'_>), TextFault>
    ensures { ReadsText (λ x. ((x.0.0.now, x.0.1), lines_left x.1)) result (one_line check_form (lines_left place.entry)) }
{
    let (line, next) = next_line(place)?;
    let head = placed(check_row(line), place.number)?;
    Ok((head, next))
}

/// `check N n`, and n lines, whatever they hold.
#[tactic(auto, unfolding(crate::specs::Parts::check_part, wt_text::specs::Readers::part_by, wt_text::specs::Readers::seen_as))]
pub fn check_at(alloc: Global, place: Place<'_>) -> Result<(Word, Place<'_>), TextFault>
    ensures read { ReadsPlace check_part result place.entry }
    ensures fits { IfOk result (λ x. Fits x.0) }
{
    let ((bound, count), place) = check_head(place)?;
    let (lines, place) = raw_at(alloc, count, place)?;
    let word = Word::Check {
        name: owned(alloc, bound)?,
        lines,
    };
    Ok((word, place))
}
