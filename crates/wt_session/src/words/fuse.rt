// The word `fuse`.
ghost use Rattle.std.specs.Prelude.{◌≡◌, ◌++◌, ◌<◌, IsTrue, IfOk, OnOk, length};
ghost use Rattle.wt_tile.specs.Matching.{matches};
ghost use Rattle.wt_session.specs.Said.{Replies};
ghost use Rattle.wt_session.specs.Fuse.{edge_text, fused_text, fused_in, fuse_reply};

use crate::colours::name_of;
use crate::lookup::set_named;
use crate::names::Names;
use crate::reply::{Answer, CommandFault, no_tile, refused};
use std::alloc::{AllocError, Global};
use wt_seq::Seq;
use wt_tile::{Axis, Edge, Fused, Name, SetRef, TileList};

/// Appends an edge: a colour's name, or those of a pair.
fn push_edge(out: &mut Vec<u8>, names: &[Name], edge: Edge) -> Result<(), AllocError>
    ensures { OnOk result (out.new.items ≡ out.old.items ++ edge_text names.now edge) }
{
    match edge {
        Edge::One(c) => out.extend_from_slice(name_of(names, c)),
        Edge::Two(c, d) => {
            out.push(b'(')?;
            out.extend_from_slice(name_of(names, c))?;
            out.push(b',')?;
            out.extend_from_slice(name_of(names, d))?;
            out.push(b')')?;
            Ok(())
        }
    }
}

/// The line of a fused tile.
fn fused_line(alloc: Global, list: &TileList, fused: Fused) -> Result<Vec<u8>, AllocError>
    ensures { IfOk result (λ text. text.items ≡ fused_text list.now fused) }
{
    let names1 = list.names1.as_slice();
    let names2 = list.names2.as_slice();
    let mut text = Vec::new(alloc);
    push_edge(&mut text, names1, fused.east)?;
    text.push(b' ')?;
    push_edge(&mut text, names2, fused.north)?;
    text.push(b' ')?;
    push_edge(&mut text, names1, fused.west)?;
    text.push(b' ')?;
    push_edge(&mut text, names2, fused.south)?;
    text.push(b'\n')?;
    Ok(text)
}

/// Two tiles of a set as one, where they match.
#[tactic(auto, unfolding(wt_tile::specs::Matching::matches))]
fn fused_pair(
    alloc: Global,
    set: SetRef<'_>,
    axis: Axis,
    u: u16,
    v: u16,
) -> Result<Answer, CommandFault>
    requires first { u < length set.list.now.tiles }
    requires second { v < length set.list.now.tiles }
    ensures { Replies (λ reply. reply ≡ fused_in set.entry.list.now axis u v) result }
{
    if !set.matches(axis, u, v) {
        return Err(refused(alloc, b"refused no match\n"));
    }
    let fused = wt_tile::fuse(axis, set.tile(u), set.tile(v));
    Ok(Answer::Says(Seq::new(fused_line(alloc, set.list, fused)?)))
}

/// `fuse S A u v`: the edges of two matching tiles as one.
pub fn fuse(
    alloc: Global,
    names: &Names,
    set: &[u8],
    axis: Axis,
    u: u16,
    v: u16,
) -> Result<Answer, CommandFault>
    ensures { Replies (λ reply. reply ≡ fuse_reply names.now set.now axis u v) result }
{
    let set = set_named(alloc, names, set)?;
    let count = set.list.tiles.as_slice().len();
    if usize::from(u) >= count {
        return Err(no_tile(alloc, u));
    }
    if usize::from(v) >= count {
        return Err(no_tile(alloc, v));
    }
    fused_pair(alloc, set, axis, u, v)
}
