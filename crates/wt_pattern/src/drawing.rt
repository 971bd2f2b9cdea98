// Drawings of patterns.
ghost use Rattle.std.specs.Prelude.{◌≡◌, ◌++◌, ◌∷◌, ◌+◌, ◌≤◌, max, length, Some, option_map, OnOk, IfOk, MatchResult};
ghost use Rattle.std.specs.Fmt.{decimal};
ghost use Rattle.wt_pattern.specs.Drawings as spec;
ghost use Rattle.wt_pattern.specs.Drawings.{spaces, filled, edge_part, number_part, middle_part, part_bytes, behind_bars, part_line, box_lines, boxes, drawing_of, IsDrawFault};

use crate::Pattern;
use crate::writing::{name_of, pattern_text};
use itoa::Buffer;
use std::alloc::{AllocError, Global};
use wt_tile::{Name, SetRef, TileList, tile_at};
use wt_write::{end_line, push_number};

/// How a pattern is drawn.
#[derive(Clone, Copy, Debug, PartialEq, Eq)]
pub enum Style {
    /// As rows of numbers, the top row first.
    Numbers,
    /// As a box of three lines for each cell, with the names of its edges.
    Boxes,
}

/// Why there is no drawing.
#[derive(Clone, Copy, Debug, PartialEq, Eq)]
pub enum DrawFault {
    /// Boxes are asked for without a set.
    NoSet,
    /// No memory was left.
    OutOfMemory,
}

/// A line of a box.
#[derive(Clone, Copy, Debug, PartialEq, Eq)]
pub enum Part {
    /// The name of the top edge.
    Top,
    /// The names of the left and the right edge, and the tile's number between them.
    Middle,
    /// The name of the bottom edge.
    Bottom,
}

fn push_spaces(out: &mut Vec<u8>, count: usize) -> Result<(), AllocError>
    ensures { OnOk result (out.new.items ≡ out.old.items ++ spaces count) }
{
    for i in 0..count {
        out.push(b' ')?;
    }
    Ok(())
}

/// Appends a name, filled with spaces.
fn push_filled(out: &mut Vec<u8>, width: usize, name: &[u8]) -> Result<(), AllocError>
    ensures { OnOk result (out.new.items ≡ out.old.items ++ filled width name.now) }
{
    out.extend_from_slice(name)?;
    push_spaces(out, width.saturating_sub(name.len()))?;
    Ok(())
}

fn push_edge(out: &mut Vec<u8>, f: usize, name: &[u8]) -> Result<(), AllocError>
    requires { f ≤ 16 }
    ensures { OnOk result (out.new.items ≡ out.old.items ++ edge_part f name.now) }
{
    push_spaces(out, f + 1)?;
    push_filled(out, f + 4, name)?;
    Ok(())
}

/// Appends a tile's number, right in 3 places, between two spaces.
fn push_tile_number(out: &mut Vec<u8>, t: u16) -> Result<(), AllocError>
    ensures { OnOk result (out.new.items ≡ out.old.items ++ number_part t) }
{
    out.push(b' ')?;
    push_spaces(out, 3usize.saturating_sub(digits(t)))?;
    push_number(out, u64::from(t))?;
    out.push(b' ')?;
    Ok(())
}

/// How many decimal digits a number has.
fn digits(t: u16) -> usize
    ensures { result ≡ length (decimal t) }
{
    let mut buffer = Buffer::new();
    buffer.format(t).len()
}

fn push_middle(
    out: &mut Vec<u8>,
    f: usize,
    west: &[u8],
    t: u16,
    east: &[u8],
) -> Result<(), AllocError>
    ensures { OnOk result (out.new.items ≡ out.old.items ++ middle_part f west.now t east.now) }
{
    push_filled(out, f, west)?;
    push_tile_number(out, t)?;
    push_filled(out, f, east)?;
    Ok(())
}

/// Appends a part of a tile's box.
fn push_part(
    out: &mut Vec<u8>,
    list: &TileList,
    f: usize,
    part: Part,
    t: u16,
) -> Result<(), AllocError>
    requires { f ≤ 16 }
    ensures { OnOk result (out.new.items ≡ out.old.items ++ part_bytes list.now f part t) }
{
    let tile = tile_at(list.tiles.as_slice(), t);
    let names1 = list.names1.as_slice();
    let names2 = list.names2.as_slice();
    match part {
        Part::Top => push_edge(out, f, name_of(names2, tile.north)),
        Part::Middle => push_middle(
            out,
            f,
            name_of(names1, tile.west),
            t,
            name_of(names1, tile.east),
        ),
        Part::Bottom => push_edge(out, f, name_of(names2, tile.south)),
    }
}

/// Appends a part behind a bar.
fn push_behind(
    out: &mut Vec<u8>,
    list: &TileList,
    f: usize,
    part: Part,
    t: u16,
) -> Result<(), AllocError>
    requires { f ≤ 16 }
    ensures { OnOk result (out.new.items ≡ out.old.items ++ 124 ∷ part_bytes list.now f part t) }
{
    out.push(b'|')?;
    push_part(out, list, f, part, t)
}

fn push_parts(
    out: &mut Vec<u8>,
    list: &TileList,
    f: usize,
    part: Part,
    row: &[u16],
) -> Result<(), AllocError>
    requires { f ≤ 16 }
    ensures { OnOk result (out.new.items ≡ out.old.items ++ behind_bars list.now f part row.now) }
{
    for t in row {
        push_behind(out, list, f, part, *t)?;
    }
    Ok(())
}

/// Appends a line of a row of boxes.
fn push_line(
    out: &mut Vec<u8>,
    list: &TileList,
    f: usize,
    part: Part,
    row: &[u16],
) -> Result<(), AllocError>
    requires { f ≤ 16 }
    ensures { OnOk result (out.new.items ≡ out.old.items ++ part_line list.now f part row.now) }
{
    let [first, others @ ..] = row else {
        return end_line(out);
    };
    push_part(out, list, f, part, *first)?;
    push_parts(out, list, f, part, others)?;
    end_line(out)?;
    Ok(())
}

/// Appends the three lines of a row of boxes.
fn push_boxes(out: &mut Vec<u8>, list: &TileList, f: usize, row: &[u16]) -> Result<(), AllocError>
    requires { f ≤ 16 }
    ensures { OnOk result (out.new.items ≡ out.old.items ++ box_lines list.now f row.now) }
{
    push_line(out, list, f, Part::Top, row)?;
    push_line(out, list, f, Part::Middle, row)?;
    push_line(out, list, f, Part::Bottom, row)?;
    Ok(())
}

/// The length of the longest of some names.
fn longest(names: &[Name]) -> usize
    ensures value { result ≡ spec.longest names.now }
    ensures few { result ≤ 16 }
{
    let mut most = 0;
    for name in names {
        most = most.max(name.bytes().len());
    }
    most
}

/// A box for each cell of a pattern, the top row first.
fn draw_boxes(alloc: Global, list: &TileList, p: &Pattern) -> Result<Vec<u8>, AllocError>
    ensures { IfOk result (λ text. text.items ≡ boxes list.now p.now) }
{
    let f = longest(list.names1.as_slice()).max(longest(list.names2.as_slice()));
    let mut out = Vec::new(alloc);
    let mut y = p.height();
    while y > 0 {
        y -= 1;
        push_boxes(&mut out, list, f, p.row(y))?;
    }
    Ok(out)
}

/// A pattern, drawn as rows of numbers or as boxes with the names of the set's colours, the top row first.
///
/// With f the length of the set's longest name, a box has three lines of 2f + 5 bytes, and a bar stands between
/// each two
/// boxes of a row. A number past the set is drawn as a tile whose edges all have colour 0. `NoSet` is answered exactly
/// where
/// boxes are asked for without a set; else memory alone can run out.
pub fn draw(
    alloc: Global,
    set: Option<SetRef>,
    p: &Pattern,
    style: Style,
) -> Result<Vec<u8>, DrawFault>
    ensures { let drawing = drawing_of (option_map (λ s. s.list.now) set.entry) p.now style in MatchResult result
        (λ text. drawing ≡ Some text.items)
        (λ e. IsDrawFault drawing e) }
{
    let drawn = match style {
        Style::Numbers => pattern_text(alloc, p),
        Style::Boxes => match set {
            None => return Err(DrawFault::NoSet),
            Some(set) => draw_boxes(alloc, set.list, p),
        },
    };
    match drawn {
        Ok(text) => Ok(text),
        Err(_) => Err(DrawFault::OutOfMemory),
    }
}
