// Tile sets and patterns, written as text.
ghost use Rattle.std.specs.Prelude.{◌≡◌, ◌++◌, OnOk, OnErr, IfOk, length, take};
ghost use Rattle.wt_names.specs.Numbering.{name_at};
ghost use Rattle.wt_text.specs.Lines.{bytes_of};
ghost use Rattle.wt_pattern.specs.TileRows.{rows_spelling};
ghost use Rattle.wt_pattern.specs.PatternRows.{pattern_lines};
ghost use Rattle.wt_pattern.specs.Writing.{tile_bytes};

use crate::Pattern;
use std::alloc::{AllocError, Global};
use wt_tile::{Name, SetRef, Tile, TileList};
use wt_write::{bytes_behind, end_line, push_row};

/// The name of a colour; no bytes where it has none.
pub(crate) fn name_of(names: &[Name], number: u16) -> &[u8]
    ensures { result.now ≡ name_at names.now number }
{
    let number = usize::from(number);
    if number < names.len() {
        names[number].bytes()
    } else {
        b""
    }
}

// Appends the row of a tile's four names. Where memory runs out, a part of the row may stand behind what was there.
fn put_tile(
    out: &mut Vec<u8>,
    names1: &[Name],
    names2: &[Name],
    tile: Tile,
) -> Result<(), AllocError>
    ensures ok { OnOk result (out.new.items ≡ out.old.items ++ tile_bytes names1.now names2.now tile) }
    ensures err { OnErr result (take (length out.old.items) out.new.items ≡ out.old.items) }
{
    out.extend_from_slice(name_of(names1, tile.east))?;
    bytes_behind(out, name_of(names2, tile.north))?;
    bytes_behind(out, name_of(names1, tile.west))?;
    bytes_behind(out, name_of(names2, tile.south))?;
    end_line(out)?;
    Ok(())
}

/// Appends the rows of a list of tiles. Where memory runs out, nothing is appended.
pub fn push_tiles(out: &mut Vec<u8>, list: &TileList) -> Result<(), AllocError>
    ensures ok { OnOk result (out.new.items ≡ out.old.items ++ bytes_of (rows_spelling list.now)) }
    ensures err { OnErr result (out.new.items ≡ out.old.items) }
{
    let before = out.len();
    let names1 = list.names1.as_slice();
    let names2 = list.names2.as_slice();
    for tile in list.tiles.as_slice() {
        if let Err(fault) = put_tile(out, names1, names2, *tile) {
            out.truncate(before);
            return Err(fault);
        }
    }
    Ok(())
}

/// The text of a tile set: a row of four names for each tile, the right, the top, the left and the bottom one.
pub fn write_set(alloc: Global, set: SetRef<'_>) -> Result<Vec<u8>, AllocError>
    ensures { IfOk result (λ text. text.items ≡ bytes_of (rows_spelling set.entry.list.now)) }
{
    let mut text = Vec::new(alloc);
    push_tiles(&mut text, set.list)?;
    Ok(text)
}

/// Appends the rows of a pattern, the top one first. Where memory runs out, nothing is appended.
pub fn push_pattern(out: &mut Vec<u8>, p: &Pattern) -> Result<(), AllocError>
    ensures ok { OnOk result (out.new.items ≡ out.old.items ++ bytes_of (pattern_lines p.now)) }
    ensures err { OnErr result (out.new.items ≡ out.old.items) }
{
    let before = out.len();
    let done = put_rows(out, p);
    if done.is_err() {
        out.truncate(before);
    }
    done
}

// Where memory runs out, some of the rows may stand behind what was there.
fn put_rows(out: &mut Vec<u8>, p: &Pattern) -> Result<(), AllocError>
    ensures ok { OnOk result (out.new.items ≡ out.old.items ++ bytes_of (pattern_lines p.now)) }
    ensures err { OnErr result (take (length out.old.items) out.new.items ≡ out.old.items) }
{
    let mut y = p.height();
    while y > 0 {
        y -= 1;
        push_row(out, p.row(y))?;
    }
    Ok(())
}

/// The text of a pattern: its rows, the top one first.
pub fn pattern_text(alloc: Global, p: &Pattern) -> Result<Vec<u8>, AllocError>
    ensures { IfOk result (λ text. text.items ≡ bytes_of (pattern_lines p.now)) }
{
    let mut text = Vec::new(alloc);
    push_pattern(&mut text, p)?;
    Ok(text)
}
