//! The word `dominoes`.
ghost use Rattle.std.specs.Prelude.{◌≡◌, ◌≤◌, ◌++◌, IfOk, OnOk};
ghost use Rattle.wt_marker.specs.Gather.{gather};
ghost use Rattle.wt_window.specs.Surrounded.{allowed};
ghost use Rattle.wt_session.specs.Said.{Replies};
ghost use Rattle.wt_session.specs.Dominoes.{follower_at, followers, line_at, tile_line, IsDominoesReply};
ghost use Rattle.wt_session.specs.Dominoes as spec;

use crate::lookup::set_named;
use crate::names::Names;
use crate::reply::{Answer, CommandFault, spent_line};
use crate::spent::spent_text;
use std::alloc::{AllocError, Global};
use wt_seq::Seq;
use wt_tile::Axis;
use wt_window::{DominoTable, TableEnd};
use wt_write::{end_line, push_number, push_numbers, push_word};

/// Appends a tile, where it may follow another.
fn push_follower(out: &mut Vec<u16>, table: &DominoTable, a: u16, b: u16) -> Result<(), AllocError>
    ensures { OnOk result (out.new.items ≡ out.old.items ++ follower_at (allowed table.now) a b) }
{
    if table.allows(a, b) {
        out.push(b)?;
    }
    Ok(())
}

/// Appends the tiles that may follow a tile.
fn push_followers(
    out: &mut Vec<u16>,
    table: &DominoTable,
    count: u16,
    a: u16,
) -> Result<(), AllocError>
    ensures { OnOk result (out.new.items ≡ out.old.items ++ followers (allowed table.now) count a) }
{
    for b in 0..count {
        push_follower(out, table, a, b)?;
    }
    Ok(())
}

/// For one tile after the other those that may follow it.
fn all_followers(alloc: Global, table: &DominoTable, count: u16) -> Result<Vec<u16>, AllocError>
    ensures { IfOk result (λ all. all.items ≡ gather (followers (allowed table.now) count) 0 count) }
{
    let mut all = Vec::new(alloc);
    for a in 0..count {
        push_followers(&mut all, table, count, a)?;
    }
    Ok(all)
}

fn push_tile(out: &mut Vec<u8>, a: u16, followers: &[u16]) -> Result<(), AllocError>
    ensures { OnOk result (out.new.items ≡ out.old.items ++ tile_line a followers.now) }
{
    if followers.is_empty() {
        return Ok(());
    }
    push_number(out, u64::from(a))?;
    push_word(out, ":")?;
    push_numbers(out, followers)?;
    end_line(out)?;
    Ok(())
}

/// Appends the line of a tile.
fn push_line(
    alloc: Global,
    out: &mut Vec<u8>,
    table: &DominoTable,
    count: u16,
    a: u16,
) -> Result<(), AllocError>
    ensures { OnOk result (out.new.items ≡ out.old.items ++ line_at (allowed table.now) count a) }
{
    let mut followers = Vec::new(alloc);
    push_followers(&mut followers, table, count, a)?;
    push_tile(out, a, &followers)
}

fn push_lines(
    alloc: Global,
    out: &mut Vec<u8>,
    table: &DominoTable,
    count: u16,
) -> Result<(), AllocError>
    ensures { OnOk result (out.new.items ≡ out.old.items ++ gather (line_at (allowed table.now) count) 0 count) }
{
    for a in 0..count {
        push_line(alloc, out, table, count, a)?;
    }
    Ok(())
}

fn dominoes_text(alloc: Global, table: &DominoTable, count: u16) -> Result<Vec<u8>, AllocError>
    ensures { IfOk result (λ text. text.items ≡ spec.dominoes_text count (allowed table.now)) }
{
    let all = all_followers(alloc, table, count)?;
    let mut text = Vec::new(alloc);
    push_word(&mut text, "dominoes ")?;
    push_number(&mut text, all.len() as u64)?;
    end_line(&mut text)?;
    push_lines(alloc, &mut text, table, count)?;
    Ok(text)
}

/// `dominoes S A r B`: the pairs that have a window.
pub fn dominoes(
    alloc: Global,
    names: &Names,
    set: &[u8],
    axis: Axis,
    radius: u8,
    budget: u64,
) -> Result<Answer, CommandFault>
    requires { radius ≤ 4 }
    ensures { Replies (IsDominoesReply names.now set.now axis radius budget) result }
{
    let set = set_named(alloc, names, set)?;
    match wt_window::dominoes(alloc, set, axis, radius, budget) {
        Ok(table) => {
            let text = dominoes_text(alloc, &table, set.len() as u16)?;
            Ok(Answer::Says(Seq::new(text)))
        }
        Err(TableEnd::Spent { a, b }) => Err(spent_line(spent_text(alloc, axis, a, b)?)),
        Err(TableEnd::OutOfMemory) => Err(CommandFault::OutOfMemory),
    }
}
