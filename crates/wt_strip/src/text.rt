//! Layers, read from their text and written as text.
ghost use Rattle.std.specs.Prelude.{◌≡◌, ◌++◌, ◌+◌, ◌≤◌, IfOk, OnOk, codes};
ghost use Rattle.std.specs.List.{concat, flat_map};
ghost use Rattle.wt_text.specs.Words.{tokens};
ghost use Rattle.wt_text.specs.Lines.{lines, bytes_of};
ghost use Rattle.wt_text.specs.Readers.{one_line, whole_text};
ghost use Rattle.wt_line.specs.Faults.{ReadsLine, ReadsText};
ghost use Rattle.wt_line.specs.Left.{lines_left, ReadsPlace};
ghost use Rattle.wt_strip.specs.Listed.{rows_in};
ghost use Rattle.wt_text.specs.Spellings.{line_spelling};
ghost use Rattle.wt_pattern.specs.PatternRows.{cells_spelling};
ghost use Rattle.wt_strip.specs.StripText.{head_form, count_form, end_form, layer_part, layers_part, strip_part, layer_rows, count_tokens, head_tokens, end_tokens, layer_lines, strip_lines};

use crate::Layers;
use crate::limits::{MAX_COLUMNS, MAX_LAYERS, MAX_ROWS};
use crate::rows::row;
use std::alloc::{AllocError, Global};
use wt_line::{
    LineFault, Place, Rest, TextFault, What, line_end, next_line, number_from_one, number_to,
    placed, text_end, word,
};
use wt_pattern::rows_at;
use wt_seq::Seq;
use wt_write::{end_line, number_behind, push_row, push_word};

/// The width and the number of layers, from the first line.
#[tactic(auto, unfolding(wt_text::specs::Readers::whole, wt_text::specs::Readers::both, wt_text::specs::Readers::value_behind))]
fn head_of(line: &[u8]) -> Result<(usize, usize), LineFault>
    ensures read { ReadsLine (λ x. x) result (head_form (tokens line.now)) }
    ensures wide { IfOk result (λ x. (1 ≤ x.0) × (x.0 ≤ MAX_COLUMNS)) }
    ensures high { IfOk result (λ x. (1 ≤ x.1) × (x.1 ≤ MAX_LAYERS)) }
{
    let rest = word("strip", Rest::new(line))?;
    let (width, rest) = number_from_one(MAX_COLUMNS as u32, What::Width, rest)?;
    let (height, rest) = number_from_one(MAX_LAYERS as u32, What::Height, rest)?;
    line_end(rest)?;
    Ok((width? as usize, height? as usize))
}

#[tactic(auto, unfolding(wt_text::specs::Readers::one_line))]
fn head_at(place: Place<'_>) -> Result<((usize, usize), Place<'_>), TextFault>
    ensures read { ReadsPlace (one_line head_form) result place.entry }
    ensures wide { IfOk result (λ x. (1 ≤ x.0.0) × (x.0.0 ≤ MAX_COLUMNS)) }
    ensures high { IfOk result (λ x. (1 ≤ x.0.1) × (x.0.1 ≤ MAX_LAYERS)) }
{
    let (line, next) = next_line(place)?;
    let head = placed(head_of(line), place.number)?;
    Ok((head, next))
}

/// How many rows a layer has, from its first line, behind n rows of other layers.
#[tactic(auto, unfolding(wt_text::specs::Readers::whole, wt_text::specs::Readers::value_behind))]
fn count_of(before: usize, line: &[u8]) -> Result<usize, LineFault>
    requires { before ≤ MAX_ROWS }
    ensures read { ReadsLine (λ x. x) result (count_form before (tokens line.now)) }
    ensures few { IfOk result (λ n. before + n ≤ MAX_ROWS) }
{
    let rest = word("layer", Rest::new(line))?;
    let (count, rest) = number_to((MAX_ROWS - before) as u32, What::Rows, rest)?;
    line_end(rest)?;
    Ok(count? as usize)
}

#[tactic(auto, unfolding(wt_text::specs::Readers::one_line))]
fn count_at(before: usize, place: Place<'_>) -> Result<(usize, Place<'_>), TextFault>
    requires { before ≤ MAX_ROWS }
    ensures read { ReadsPlace (one_line (count_form before)) result place.entry }
    ensures few { IfOk result (λ x. before + x.0 ≤ MAX_ROWS) }
{
    let (line, next) = next_line(place)?;
    let count = placed(count_of(before, line), place.number)?;
    Ok((count, next))
}

/// The cells of rows, one row after the other.
fn joined(alloc: Global, rows: &[Seq<u16>]) -> Result<Vec<u16>, AllocError>
    ensures { IfOk result (λ cells. cells.items ≡ concat rows.now) }
{
    let mut cells = Vec::new(alloc);
    for row in rows {
        cells.extend_from_slice(row.as_slice())?;
    }
    Ok(cells)
}

/// A layer of rows of width w, behind n rows of other layers.
#[tactic(auto, using(crate::proofs::TextLaws::rows_read), unfolding(wt_text::specs::Readers::seen_as, wt_text::specs::Readers::counted_parts))]
fn layer_at(
    alloc: Global,
    w: usize,
    before: usize,
    place: Place<'_>,
) -> Result<(Seq<u16>, Place<'_>), TextFault>
    requires wide { 1 ≤ w }
    requires before { before ≤ MAX_ROWS }
    ensures read { ReadsPlace (layer_part w before) result place.entry }
    ensures few { IfOk result (λ x. before + rows_in w x.0 ≤ MAX_ROWS) }
{
    let (count, place) = count_at(before, place)?;
    let (rows, place) = rows_at(alloc, w, count, place)?;
    let cells = joined(alloc, &rows)?;
    Ok((Seq::new(cells), place))
}

/// n layers of rows of width w, the lowest first.
fn layers_at(
    alloc: Global,
    w: usize,
    h: usize,
    place: Place<'_>,
) -> Result<(Seq<Seq<u16>>, Place<'_>), TextFault>
    requires wide { 1 ≤ w }
    ensures { ReadsPlace (layers_part w h) result place.entry }
{
    let mut layers = Vec::new(alloc);
    let mut before = 0;
    let mut place = place;
    for _ in 0..h {
        let (cells, next) = layer_at(alloc, w, before, place)?;
        before += cells.as_slice().len() / w;
        layers.push(cells)?;
        place = next;
    }
    Ok((Seq::new(layers), place))
}

/// The word `end`, and no more.
#[tactic(auto, unfolding(wt_text::specs::Readers::whole, wt_text::specs::Readers::value_behind))]
fn end_of(line: &[u8]) -> Result<(), LineFault>
    ensures { ReadsLine (λ x. x) result (end_form (tokens line.now)) }
{
    let rest = word("end", Rest::new(line))?;
    line_end(rest)
}

#[tactic(auto, unfolding(wt_text::specs::Readers::one_line))]
fn end_at(place: Place<'_>) -> Result<Place<'_>, TextFault>
    ensures { ReadsText (λ p. (tt, lines_left p)) result (one_line end_form (lines_left place.entry)) }
{
    let (line, next) = next_line(place)?;
    placed(end_of(line), place.number)?;
    Ok(next)
}

/// Layers with their first and their last line, and the place behind them.
#[tactic(auto, unfolding(wt_text::specs::Readers::seen_as, wt_text::specs::Readers::both_parts, wt_text::specs::Readers::part_by))]
pub fn strip_at(alloc: Global, place: Place<'_>) -> Result<(Layers, Place<'_>), TextFault>
    ensures { ReadsPlace strip_part result place.entry }
{
    let ((width, height), place) = head_at(place)?;
    let (layers, place) = layers_at(alloc, width, height, place)?;
    let place = end_at(place)?;
    Ok((Layers { width, layers }, place))
}

/// Layers, from a text that is theirs and no more.
///
/// The text is the line `strip w h` with the width and the number of layers, for each layer, from the lowest up, the line
/// `layer c` and c lines of w numbers, and the line `end`. A width over `MAX_COLUMNS` passes the limit `width`, a number
/// of layers over `MAX_LAYERS` the limit `height`, a count with which there are more than `MAX_ROWS` rows the limit
/// `rows`, and a number over `MOST` the limit `number`.
#[tactic(auto, unfolding(wt_text::specs::Readers::whole_text))]
pub fn read_strip(alloc: Global, bytes: &[u8]) -> Result<Layers, TextFault>
    ensures { ReadsText (λ l. l) result (whole_text strip_part (lines bytes.now)) }
{
    let (layers, place) = strip_at(alloc, Place::new(bytes))?;
    text_end(place)?;
    Ok(layers)
}

/// Appends the first line of a layer.
#[tactic(auto, using(crate::proofs::Written::count_written))]
fn push_count(out: &mut Vec<u8>, count: usize) -> Result<(), AllocError>
    ensures { OnOk result (out.new.items ≡ out.old.items ++ bytes_of (line_spelling (count_tokens (codes "layer")) count)) }
{
    push_word(out, "layer")?;
    number_behind(out, count as u64)?;
    end_line(out)
}

/// Appends the rows of a layer.
fn push_rows(out: &mut Vec<u8>, w: usize, cells: &[u16]) -> Result<(), AllocError>
    requires { 1 ≤ w }
    ensures { OnOk result (out.new.items ≡ out.old.items ++ bytes_of (flat_map (line_spelling cells_spelling) (layer_rows w cells.now))) }
{
    for r in 0..cells.len() / w {
        push_row(out, row(w, cells, r))?;
    }
    Ok(())
}

/// Appends the lines of a layer.
#[tactic(auto, using(crate::proofs::Written::layer_written))]
fn push_layer(out: &mut Vec<u8>, w: usize, cells: &[u16]) -> Result<(), AllocError>
    requires { 1 ≤ w }
    ensures { OnOk result (out.new.items ≡ out.old.items ++ bytes_of (layer_lines w cells.now)) }
{
    push_count(out, cells.len() / w)?;
    push_rows(out, w, cells)
}

/// Appends the lines of layers, the lowest first.
fn push_layers(out: &mut Vec<u8>, w: usize, layers: &[Seq<u16>]) -> Result<(), AllocError>
    requires { 1 ≤ w }
    ensures { OnOk result (out.new.items ≡ out.old.items ++ bytes_of (flat_map (layer_lines w) layers.now)) }
{
    for cells in layers {
        push_layer(out, w, cells.as_slice())?;
    }
    Ok(())
}

/// Appends the first line.
#[tactic(auto, using(crate::proofs::Written::head_written))]
fn push_head(out: &mut Vec<u8>, width: usize, height: usize) -> Result<(), AllocError>
    ensures { OnOk result (out.new.items ≡ out.old.items ++ bytes_of (line_spelling head_tokens (width, height))) }
{
    push_word(out, "strip")?;
    number_behind(out, width as u64)?;
    number_behind(out, height as u64)?;
    end_line(out)
}

/// Appends the last line.
#[tactic(auto, using(crate::proofs::Written::end_written))]
fn push_end(out: &mut Vec<u8>) -> Result<(), AllocError>
    ensures { OnOk result (out.new.items ≡ out.old.items ++ bytes_of (line_spelling end_tokens tt)) }
{
    push_word(out, "end")?;
    end_line(out)
}

/// Appends the text of layers. Where memory runs out, a part of it may stand behind what was there.
pub fn push_strip(out: &mut Vec<u8>, layers: &Layers) -> Result<(), AllocError>
    requires { 1 ≤ layers.now.width }
    ensures { OnOk result (out.new.items ≡ out.old.items ++ bytes_of (strip_lines layers.now)) }
{
    let list = layers.layers.as_slice();
    push_head(out, layers.width, list.len())?;
    push_layers(out, layers.width, list)?;
    push_end(out)?;
    Ok(())
}

/// The text of layers. It is read as these layers where they are within the limits of layers and of whole rows
/// (`strip_texts_are_exact`).
pub fn write_strip(alloc: Global, layers: &Layers) -> Result<Vec<u8>, AllocError>
    requires { 1 ≤ layers.now.width }
    ensures { IfOk result (λ text. text.items ≡ bytes_of (strip_lines layers.now)) }
{
    let mut text = Vec::new(alloc);
    push_strip(&mut text, layers)?;
    Ok(text)
}
