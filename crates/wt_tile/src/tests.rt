// What no clause says: faults of lists that were worked out by hand, and each call once.
ghost use Rattle.std.specs.Prelude.{◌≡◌, ◌≤◌};

use crate::{
    Axis, Colours, Edge, Name, SetFault, SetRef, Tile, TileList, TileSet, fuse, set_fault,
};
use std::alloc::{AllocError, Global};
use std::test::Fail;
use wt_seq::Seq;

fn tile(east: u16, north: u16, west: u16, south: u16) -> Tile
    ensures { result ≡ record { east = east; north = north; west = west; south = south } }
{
    Tile {
        east,
        north,
        west,
        south,
    }
}

/// Names of one letter each.
fn names(alloc: Global, letters: &[u8]) -> Result<Seq<Name>, AllocError> {
    let mut names = Vec::new(alloc);
    for letter in letters {
        if let Some(name) = Name::new(&[*letter]) {
            names.push(name)?;
        }
    }
    Ok(Seq::new(names))
}

fn list(
    alloc: Global,
    tiles: &[Tile],
    letters1: &[u8],
    letters2: &[u8],
) -> Result<TileList, AllocError> {
    Ok(TileList {
        tiles: Seq::new(tiles.to_vec(alloc)?),
        names1: names(alloc, letters1)?,
        names2: names(alloc, letters2)?,
    })
}

#[test]
fn names_the_first_fault(rt: HostRuntime) -> Result<(), Fail> {
    let plain = tile(0, 0, 0, 0);
    let next = tile(0, 0, 1, 0);
    let skips = tile(1, 0, 0, 0);
    let no_colour = Some(SetFault::NoColour { tile: 0 });
    let names1 = Some(SetFault::Names { axis: Axis::One });
    let names2 = Some(SetFault::Names { axis: Axis::Two });
    let repeated = Some(SetFault::Repeated {
        first: 0,
        second: 2,
    });
    // Four tiles of which the first n count, the names of each axis, and the fault.
    let rows: [([Tile; 4], usize, &[u8], &[u8], Option<SetFault>); 10] = [
        ([plain; 4], 0, b"aa", b"", Some(SetFault::Empty)),
        ([plain; 4], 1, b"a", b"a", None),
        ([plain, next, plain, plain], 2, b"ab", b"a", None),
        ([skips; 4], 1, b"ab", b"a", no_colour),
        ([next; 4], 1, b"a", b"a", no_colour),
        ([next; 4], 1, b"aa", b"a", names1),
        ([plain; 4], 2, b"ab", b"aa", names1),
        ([plain; 4], 2, b"a", b"ab", names2),
        ([plain, next, plain, next], 4, b"ab", b"a", repeated),
        (
            [plain, next, next, plain],
            4,
            b"ab",
            b"a",
            Some(SetFault::Repeated {
                first: 1,
                second: 2,
            }),
        ),
    ];
    for (tiles, count, letters1, letters2, want) in rows {
        let list = list(rt.alloc(), &tiles[..count.min(4)], letters1, letters2)?;
        assert_eq!(rt; set_fault(&list), want);
    }
    Ok(())
}

/// n tiles, each with a colour of its own on axis 1.
fn many(alloc: Global, count: u16) -> Result<TileList, AllocError>
    requires { count ≤ 257 }
{
    let mut tiles = Vec::new(alloc);
    let mut names1 = Vec::new(alloc);
    for k in 0..count {
        tiles.push(tile(k, 0, k, 0))?;
        let letters = [b'a' + (k / 26) as u8, b'a' + (k % 26) as u8];
        if let Some(name) = Name::new(&letters) {
            names1.push(name)?;
        }
    }
    Ok(TileList {
        tiles: Seq::new(tiles),
        names1: Seq::new(names1),
        names2: names(alloc, b"a")?,
    })
}

#[test]
fn takes_256_tiles(rt: HostRuntime) -> Result<(), Fail> {
    let list = many(rt.alloc(), 256)?;
    assert!(rt; set_fault(&list).is_none());
    Ok(())
}

#[test]
fn refuses_257_tiles(rt: HostRuntime) -> Result<(), Fail> {
    let list = many(rt.alloc(), 257)?;
    assert_eq!(rt; set_fault(&list), Some(SetFault::TooMany));
    Ok(())
}

#[test]
fn copies_a_set(rt: HostRuntime) -> Result<(), Fail> {
    let list = many(rt.alloc(), 3)?;
    if let Ok(set) = TileSet::new(list) {
        let copied = set.view().copy(rt.alloc())?;
        assert_eq!(rt; copied.view().len(), 3);
        let list = copied.into_list();
        assert_eq!(rt; list.names2.as_slice().len(), 1);
        assert!(rt; SetRef::new(&list).is_ok());
    }
    Ok(())
}

/// Two dominoes whose names, put together, would both be ABC: of the colours A, m, BC, AB, C, and of AB before C.
#[test]
fn numbers_pairs_of_colours(rt: HostRuntime) -> Result<(), Fail> {
    let first = fuse(Axis::One, tile(0, 0, 0, 1), tile(0, 2, 0, 1));
    let second = fuse(Axis::One, tile(0, 3, 0, 1), tile(0, 4, 0, 1));
    assert_eq!(rt; first.north, Edge::Two(0, 2));
    let mut colours = Colours::new(rt.alloc());
    let edges = [
        (first.north, 0),
        (first.south, 1),
        (second.north, 2),
        (second.south, 1),
        (Edge::One(0), 3),
    ];
    for (edge, want) in edges {
        assert_eq!(rt; colours.number(edge), Ok(want));
    }
    assert_eq!(rt; colours.len(), 4);
    Ok(())
}

/// The text of an edge of a fused tile: a colour's name, or two names in brackets.
fn edge_text(alloc: Global, names: &[&str], edge: Edge) -> Result<String, Fail> {
    let mut text = String::new(alloc);
    match edge {
        Edge::One(a) => text.push_str(names.get(usize::from(a)).ok_or("name")?)?,
        Edge::Two(a, b) => {
            text.push('(')?;
            text.push_str(names.get(usize::from(a)).ok_or("name")?)?;
            text.push(',')?;
            text.push_str(names.get(usize::from(b)).ok_or("name")?)?;
            text.push(')')?;
        }
    }
    Ok(text)
}

#[test]
fn keeps_names_of_pairs_apart(rt: HostRuntime) -> Result<(), Fail> {
    // The tiles k A k m and k BC k m as one, and the tiles k AB k m and k C k m.
    let names = ["A", "m", "BC", "AB", "C"];
    for (left, right, want) in [(0, 2, "(A,BC)"), (3, 4, "(AB,C)")] {
        let fused = fuse(Axis::One, tile(0, left, 0, 1), tile(0, right, 0, 1));
        assert_eq!(rt; fused.east, Edge::One(0));
        assert_eq!(rt; fused.west, Edge::One(0));
        let north = edge_text(rt.alloc(), &names, fused.north)?;
        assert_eq!(rt; north.as_str(), want);
        let south = edge_text(rt.alloc(), &names, fused.south)?;
        assert_eq!(rt; south.as_str(), "(m,m)");
    }
    Ok(())
}
