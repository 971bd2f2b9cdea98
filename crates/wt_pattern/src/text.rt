// Tile sets and patterns as text.
ghost use Rattle.std.specs.Prelude.{◌≡◌, ◌≤◌, ◌<◌, IfOk, Ok, Err};
ghost use Rattle.wt_text.specs.Words.{tokens};
ghost use Rattle.wt_text.specs.Lines.{lines};
ghost use Rattle.wt_text.specs.Readers.{whole_text, one_line};
ghost use Rattle.wt_line.specs.Faults.{ReadsLine, ReadsText};
ghost use Rattle.wt_pattern.specs.TileRows.{tile_rows};
ghost use Rattle.wt_pattern.specs.PatternRows.{pattern_rows, pattern_part, shape_form};
ghost use Rattle.wt_line.specs.Left.{ReadsPlace};

use crate::Pattern;
use crate::cells::{rows_at, stacked};
use crate::rows::tiles_at;
use std::alloc::Global;
use wt_grid::{MAX_SIDE, MAX_TILES};
use wt_line::{
    LineFault, Place, Rest, TextFault, What, line_end, next_line, number_from_one, placed,
    text_end, word,
};
use wt_tile::TileList;

/// A list of n tiles, from a text that is its rows and no more.
#[tactic(auto, unfolding(wt_text::specs::Readers::whole_text))]
pub fn read_set(alloc: Global, bytes: &[u8], tiles: usize) -> Result<TileList, TextFault>
    requires { tiles ≤ MAX_TILES }
    ensures { ReadsText (λ list. list) result (whole_text (tile_rows tiles) (lines bytes.now)) }
{
    let (list, place) = tiles_at(alloc, tiles, Place::new(bytes))?;
    text_end(place)?;
    Ok(list)
}

/// The rows of a pattern of this width and height, the top one first, and the place behind them.
#[tactic(auto, unfolding(wt_text::specs::Readers::seen_as))]
pub fn pattern_rows_at(
    alloc: Global,
    width: usize,
    height: usize,
    place: Place<'_>,
) -> Result<(Pattern, Place<'_>), TextFault>
    requires wide { (1 ≤ width) × (width ≤ MAX_SIDE) }
    requires high { (1 ≤ height) × (height ≤ MAX_SIDE) }
    ensures { ReadsPlace (pattern_rows width height) result place.entry }
{
    let (rows, place) = rows_at(alloc, width, height, place)?;
    let cells = stacked(alloc, rows)?;
    Ok((Pattern::of(width, height, cells), place))
}

/// A pattern of this width and height, from a text that is its rows and no more.
#[tactic(auto, unfolding(wt_text::specs::Readers::whole_text))]
pub fn read_pattern(alloc: Global, bytes: &[u8], w: usize, h: usize) -> Result<Pattern, TextFault>
    requires wide { (1 ≤ w) × (w ≤ MAX_SIDE) }
    requires high { (1 ≤ h) × (h ≤ MAX_SIDE) }
    ensures { ReadsText (λ pattern. pattern) result (whole_text (pattern_rows w h) (lines bytes.now)) }
{
    let (pattern, place) = pattern_rows_at(alloc, w, h, Place::new(bytes))?;
    text_end(place)?;
    Ok(pattern)
}

#[tactic(auto, unfolding(wt_text::specs::Readers::whole, wt_text::specs::Readers::both, wt_text::specs::Readers::value_behind))]
fn shape_of(line: &[u8]) -> Result<(usize, usize), LineFault>
    ensures read { ReadsLine (λ x. x) result (shape_form (tokens line.now)) }
    ensures wide { IfOk result (λ x. (1 ≤ x.0) × (x.0 ≤ MAX_SIDE)) }
    ensures high { IfOk result (λ x. (1 ≤ x.1) × (x.1 ≤ MAX_SIDE)) }
{
    let rest = word("pattern", Rest::new(line))?;
    let (width, rest) = number_from_one(MAX_SIDE as u32, What::Width, rest)?;
    let (height, rest) = number_from_one(MAX_SIDE as u32, What::Height, rest)?;
    line_end(rest)?;
    Ok((width? as usize, height? as usize))
}

#[tactic(auto, unfolding(wt_text::specs::Readers::one_line))]
fn shape_at(place: Place<'_>) -> Result<((usize, usize), Place<'_>), TextFault>
    ensures read { ReadsPlace (one_line shape_form) result place.entry }
    ensures wide { IfOk result (λ x. (1 ≤ x.0.0) × (x.0.0 ≤ MAX_SIDE)) }
    ensures high { IfOk result (λ x. (1 ≤ x.0.1) × (x.0.1 ≤ MAX_SIDE)) }
{
    let (line, next) = next_line(place)?;
    let shape = placed(shape_of(line), place.number)?;
    Ok((shape, next))
}

/// A pattern with its head: the line `pattern`, its width and its height, and then its rows, the top one first.
/// The place behind it comes with it.
#[tactic(auto, unfolding(wt_text::specs::Readers::seen_as, wt_text::specs::Readers::part_by))]
pub fn pattern_at(alloc: Global, place: Place<'_>) -> Result<(Pattern, Place<'_>), TextFault>
    ensures { ReadsPlace pattern_part result place.entry }
{
    let ((width, height), place) = shape_at(place)?;
    pattern_rows_at(alloc, width, height, place)
}
