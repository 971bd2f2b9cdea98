// Tile sets as JSON.
ghost use Rattle.std.specs.Prelude.{◌≡◌, IfOk, map};
ghost use Rattle.serde_json.specs.Data.{string};
ghost use Rattle.serde_json.specs.View.{view};
ghost use Rattle.wt_names.specs.Numbering.{name_at};
ghost use Rattle.wt_session.specs.Json as spec;

use crate::colours::name_of;
use serde_json::{Value, json};
use std::alloc::{AllocError, Global};
use wt_tile::{Name, Tile, TileList};

fn name_json(alloc: Global, names: &[Name], number: u16) -> Result<Value, AllocError>
    ensures { IfOk result (λ v. view v ≡ string (name_at names.now number)) }
{
    match str::from_utf8(name_of(names, number)) {
        Ok(text) => Value::try_from_str(alloc, text),
        Err(_) => unreachable!(),
    }
}

fn tile_json(
    alloc: Global,
    names1: &[Name],
    names2: &[Name],
    tile: Tile,
) -> Result<Value, AllocError>
    ensures { IfOk result (λ v. view v ≡ spec.tile_json names1.now names2.now tile) }
{
    let right = name_json(alloc, names1, tile.east)?;
    let top = name_json(alloc, names2, tile.north)?;
    let left = name_json(alloc, names1, tile.west)?;
    let bottom = name_json(alloc, names2, tile.south)?;
    json!(in alloc; [right, top, left, bottom])
}

#[tactic(auto, using(crate::proofs::Jsons::one_more))]
fn tiles_json(alloc: Global, list: &TileList) -> Result<Vec<Value>, AllocError>
    ensures { IfOk result (λ v. map view v.items ≡ map (spec.tile_json list.now.names1 list.now.names2) list.now.tiles) }
{
    let names1 = list.names1.as_slice();
    let names2 = list.names2.as_slice();
    let tiles = list.tiles.as_slice();
    let mut items = Vec::with_capacity(alloc, tiles.len())?;
    for tile in tiles {
        items.push(tile_json(alloc, names1, names2, *tile)?)?;
    }
    Ok(items)
}

pub fn set_json(alloc: Global, list: &TileList) -> Result<Value, AllocError>
    ensures { IfOk result (λ v. view v ≡ spec.set_json list.now) }
{
    let tiles = Value::Array(tiles_json(alloc, list)?);
    json!(in alloc; {"kind": "set", "tiles": tiles})
}
