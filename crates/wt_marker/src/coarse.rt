//! Coarse tiles: the edges of images, numbered by first coming.
ghost use Rattle.std.specs.Prelude.{◌≡◌, ◌+◌, ◌*◌, ◌<◌, ◌≤◌, [], true, length, map, IfOk, OnOk, IsTrue};
ghost use Rattle.std.specs.List.{list_all};
ghost use Rattle.std.specs.Fmt.{decimal};
ghost use Rattle.wt_marker.specs.Coarse.{place, come, come_both, number_tiles, all1, all2, names_of};
ghost use Rattle.wt_marker.specs.Coarse as spec;

use itoa::Buffer;
use std::alloc::{AllocError, Global};
use wt_grid::{Image, MAX_TILES};
use wt_seq::Seq;
use wt_tile::{Axis, ColourFault, Colours, Edge, Fused, Name, Tile, TileList, fuse, tile_at};

fn plain(tile: Tile) -> Fused
    ensures { result ≡ spec.plain tile }
{
    Fused {
        east: Edge::One(tile.east),
        north: Edge::One(tile.north),
        west: Edge::One(tile.west),
        south: Edge::One(tile.south),
    }
}

/// The edges of an image, whose tiles match along the axis.
#[tactic(auto, unfolding(wt_tile::specs::Matching::matches))]
fn edges_of(tiles: &[Tile], axis: Axis, image: Image) -> Fused
    requires { spec.is_joined tiles.now axis image ≡ true }
    ensures { result ≡ spec.edges_of tiles.now axis image }
{
    match image {
        Image::One(a) => plain(tile_at(tiles, a)),
        Image::Two(a, b) => fuse(axis, tile_at(tiles, a), tile_at(tiles, b)),
    }
}

/// The number of an edge. Fails only where memory runs out, since there are fewer than 512 others.
fn number(colours: &mut Colours, edge: Edge) -> Result<u16, AllocError>
    requires few { length colours.old < 512 }
    ensures number { IfOk result (λ n. n ≡ place edge colours.old) }
    ensures seen { OnOk result (colours.new ≡ come colours.old edge) }
    ensures few { OnOk result (length colours.new ≤ length colours.old + 1) }
{
    match colours.number(edge) {
        Ok(n) => Ok(n),
        Err(ColourFault::OutOfMemory) => Err(AllocError),
        Err(ColourFault::TooMany) => unreachable!(),
    }
}

/// The tile of these edges.
fn number_tile(
    colours1: &mut Colours,
    colours2: &mut Colours,
    edges: Fused,
) -> Result<Tile, AllocError>
    requires few1 { length colours1.old ≤ 510 }
    requires few2 { length colours2.old ≤ 510 }
    ensures tile { IfOk result (λ t. t ≡ spec.number_tile colours1.old colours2.old edges) }
    ensures seen1 { OnOk result (colours1.new ≡ come_both colours1.old edges.east edges.west) }
    ensures seen2 { OnOk result (colours2.new ≡ come_both colours2.old edges.north edges.south) }
    ensures more1 { OnOk result (length colours1.new ≤ length colours1.old + 2) }
    ensures more2 { OnOk result (length colours2.new ≤ length colours2.old + 2) }
{
    let east = number(colours1, edges.east)?;
    let west = number(colours1, edges.west)?;
    let north = number(colours2, edges.north)?;
    let south = number(colours2, edges.south)?;
    Ok(Tile {
        east,
        north,
        west,
        south,
    })
}

/// The tiles of images.
fn number_images(
    alloc: Global,
    tiles: &[Tile],
    axis: Axis,
    images: &[Image],
    colours1: &mut Colours,
    colours2: &mut Colours,
) -> Result<Vec<Tile>, AllocError>
    requires few { length images.now ≤ MAX_TILES }
    requires joined { list_all (spec.is_joined tiles.now axis) images.now ≡ true }
    requires none1 { colours1.old ≡ [] }
    requires none2 { colours2.old ≡ [] }
    ensures tiles { IfOk result (λ out. out.items ≡ number_tiles [] [] (map (spec.edges_of tiles.now axis) images.now)) }
    ensures seen1 { OnOk result (colours1.new ≡ all1 [] (map (spec.edges_of tiles.now axis) images.now)) }
    ensures seen2 { OnOk result (colours2.new ≡ all2 [] (map (spec.edges_of tiles.now axis) images.now)) }
{
    let mut out = Vec::new(alloc);
    for image in images {
        let edges = edges_of(tiles, axis, *image);
        let tile = number_tile(colours1, colours2, edges)?;
        out.push(tile)?;
    }
    Ok(out)
}

/// A number as a name.
fn name_of(number: u16) -> Name
    ensures { result ≡ decimal number }
{
    let mut buffer = Buffer::new();
    Name::new(buffer.format(number).as_bytes()).unwrap()
}

/// The numbers below a count as names.
fn names(alloc: Global, count: u16) -> Result<Vec<Name>, AllocError>
    ensures { IfOk result (λ out. out.items ≡ names_of count) }
{
    let mut out = Vec::new(alloc);
    for number in 0..count {
        out.push(name_of(number))?;
    }
    Ok(out)
}

/// The coarse tiles of images, whose colours are numbered by first coming, with their numbers as names.
pub fn coarse_set(
    alloc: Global,
    tiles: &[Tile],
    axis: Axis,
    images: &[Image],
) -> Result<TileList, AllocError>
    requires few { length images.now ≤ MAX_TILES }
    requires joined { list_all (spec.is_joined tiles.now axis) images.now ≡ true }
    ensures { IfOk result (λ set. set ≡ spec.coarse_set (map (spec.edges_of tiles.now axis) images.now)) }
{
    let mut colours1 = Colours::new(alloc);
    let mut colours2 = Colours::new(alloc);
    let coarse = number_images(alloc, tiles, axis, images, &mut colours1, &mut colours2)?;
    let names1 = names(alloc, colours1.len())?;
    let names2 = names(alloc, colours2.len())?;
    Ok(TileList {
        tiles: Seq::new(coarse),
        names1: Seq::new(names1),
        names2: Seq::new(names2),
    })
}
