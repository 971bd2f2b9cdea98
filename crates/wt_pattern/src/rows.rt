// Rows of four colour names, and the tiles that they stand for.
ghost use Rattle.std.specs.Prelude.{◌≡◌, ◌+◌, ◌<◌, ◌≤◌, ◌^◌, MatchOption, OnOk, IfOk, Ok, true, false, length, vec_len};
ghost use Rattle.wt_tile.specs.Sets.{is_among, set_fault};
ghost use Rattle.wt_text.specs.Words.{tokens};
ghost use Rattle.wt_line.specs.declared.faults.What.{What};
ghost use Rattle.wt_line.specs.Given.{left};
ghost use Rattle.wt_line.specs.Faults.{ReadsTokens, ReadsLine, ReadsText};
ghost use Rattle.wt_names.specs.Numbering.{place, seen_after};
ghost use Rattle.wt_names.specs.Rows.{name_word, row_form, is_name, RowFits};
ghost use Rattle.wt_pattern.specs.TileRows.{row_part, tile_rows};
ghost use Rattle.wt_pattern.specs.Plain.{IsPlain};
ghost use Rattle.wt_pattern.specs.Numbered.{four_names, row_words, row_named, next_tile};
ghost use Rattle.wt_line.specs.Left.{tokens_left, lines_left, ReadsPlace};

use std::alloc::{AllocError, Global};
use wt_grid::MAX_TILES;
use wt_line::{LineFault, Place, Rest, TextFault, line_end, next_line, next_token, placed};
use wt_seq::Seq;
use wt_tile::{Name, Tile, TileList};

/// The names of a tile's four colours.
#[derive(Clone, Copy)]
struct Row<'a> {
    right: &'a [u8],
    top: &'a [u8],
    left: &'a [u8],
    bottom: &'a [u8],
}

#[tactic(auto, using(crate::proofs::Names::named, crate::proofs::Names::not_named))]
fn name_at(rest: Rest<'_>) -> Result<(&[u8], Rest<'_>), LineFault>
    ensures read { ReadsTokens (λ x. (Ok x.0.now, tokens_left x.1)) result (name_word {W = What} (tokens_left rest.entry)) }
    ensures name { IfOk result (λ x. is_name x.0.now ≡ true) }
{
    let Some((token, rest)) = next_token(rest) else {
        return Err(LineFault::Wrong);
    };
    if Name::new(token).is_none() {
        return Err(LineFault::Wrong);
    }
    Ok((token, rest))
}

#[tactic(auto, unfolding(wt_text::specs::Readers::both))]
fn names_at(rest: Rest<'_>) -> Result<(Row<'_>, Rest<'_>), LineFault>
    ensures read { ReadsTokens (λ x. (Ok (row_words x.0), tokens_left x.1)) result (four_names {W = What} (tokens_left rest.entry)) }
    ensures names { IfOk result (λ x. RowFits (row_words x.0)) }
{
    let (right, rest) = name_at(rest)?;
    let (top, rest) = name_at(rest)?;
    let (left, rest) = name_at(rest)?;
    let (bottom, rest) = name_at(rest)?;
    let row = Row {
        right,
        top,
        left,
        bottom,
    };
    Ok((row, rest))
}

#[tactic(auto, unfolding(wt_text::specs::Readers::whole))]
fn row_names(line: &[u8]) -> Result<Row<'_>, LineFault>
    ensures read { ReadsLine row_words result (row_form (tokens line.now)) }
    ensures names { IfOk result (λ r. RowFits (row_words r)) }
{
    let (row, rest) = names_at(Rest::new(line))?;
    line_end(rest)?;
    Ok(row)
}

#[tactic(auto, unfolding(wt_text::specs::Readers::one_line, wt_text::specs::Readers::seen_as))]
fn row_at(place: Place<'_>) -> Result<(Row<'_>, Place<'_>), TextFault>
    ensures read { ReadsText (λ x. (row_named x.0, lines_left x.1)) result (row_part (lines_left place.entry)) }
    ensures names { IfOk result (λ x. RowFits (row_words x.0)) }
{
    let (line, next) = next_line(place)?;
    let row = placed(row_names(line), place.number)?;
    Ok((row, next))
}

/// Where a name stands first.
fn place_of(name: &[u8], names: &[Name]) -> Option<usize>
    ensures { MatchOption result (is_among name.now names.now ≡ false) (λ i. (is_among name.now names.now ≡ true) × (i ≡ place name.now names.now) × (i < length names.now)) }
{
    for (i, other) in names.iter().enumerate() {
        if name == other.bytes() {
            return Some(i);
        }
    }
    None
}

/// A name's number by first coming: a new one is put behind the others.
#[tactic(auto, using(crate::proofs::Names::of_name, wt_names::proofs::Ordered::place_new))]
fn number(names: &mut Vec<Name>, name: &[u8]) -> Result<u16, AllocError>
    requires name { is_name name.now ≡ true }
    requires few { vec_len names.old < 2 ^ 16 }
    ensures value { IfOk result (λ n. n ≡ place name.now names.old.items) }
    ensures named { OnOk result (names.new.items ≡ seen_after names.old.items name.now) }
    ensures few { OnOk result (vec_len names.new ≤ vec_len names.old + 1) }
{
    if let Some(at) = place_of(name, names) {
        return Ok(at as u16);
    }
    let at = names.len();
    names.push(Name::new(name).unwrap())?;
    Ok(at as u16)
}

/// The tile of a row, with the colours of each axis numbered by first coming.
fn numbered(
    names1: &mut Vec<Name>,
    names2: &mut Vec<Name>,
    row: Row<'_>,
) -> Result<Tile, AllocError>
    requires names { RowFits (row_words row) }
    requires few1 { vec_len names1.old + 1 < 2 ^ 16 }
    requires few2 { vec_len names2.old + 1 < 2 ^ 16 }
    ensures value { IfOk result (λ t. t ≡ next_tile names1.old.items names2.old.items (row_named row.entry)) }
    ensures named1 { OnOk result (names1.new.items ≡ seen_after (seen_after names1.old.items row.entry.right.now) row.entry.left.now) }
    ensures named2 { OnOk result (names2.new.items ≡ seen_after (seen_after names2.old.items row.entry.top.now) row.entry.bottom.now) }
    ensures fewer1 { OnOk result (vec_len names1.new ≤ vec_len names1.old + 2) }
    ensures fewer2 { OnOk result (vec_len names2.new ≤ vec_len names2.old + 2) }
{
    let east = number(names1, row.right)?;
    let north = number(names2, row.top)?;
    let west = number(names1, row.left)?;
    let south = number(names2, row.bottom)?;
    Ok(Tile {
        east,
        north,
        west,
        south,
    })
}

/// n rows of four colour names as a list of tiles, and the place behind them. The names are the right, the
/// top, the left and the bottom one; the colours of each axis are numbered by first coming. So such a list is a tile
/// set, but that it may be empty or repeat a tile.
pub fn tiles_at(
    alloc: Global,
    count: usize,
    place: Place<'_>,
) -> Result<(TileList, Place<'_>), TextFault>
    requires { count ≤ MAX_TILES }
    ensures read { ReadsPlace (tile_rows count) result place.entry }
    ensures plain { IfOk result (λ x. IsPlain (set_fault x.0)) }
{
    let mut tiles = Vec::new(alloc);
    let mut names1 = Vec::new(alloc);
    let mut names2 = Vec::new(alloc);
    let mut place = place;
    for _ in 0..count {
        let (row, next) = row_at(place)?;
        let tile = numbered(&mut names1, &mut names2, row)?;
        tiles.push(tile)?;
        place = next;
    }
    let list = TileList {
        tiles: Seq::new(tiles),
        names1: Seq::new(names1),
        names2: Seq::new(names2),
    };
    Ok((list, place))
}
