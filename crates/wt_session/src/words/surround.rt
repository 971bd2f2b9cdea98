//! The word `surround`.
ghost use Rattle.std.specs.Prelude.{◌≡◌, ◌≤◌, IfOk};
ghost use Rattle.wt_session.specs.Said.{Replies};
ghost use Rattle.wt_session.specs.Surround.{IsSurroundReply};
ghost use Rattle.wt_session.specs.Surround as spec;

use crate::lookup::set_named;
use crate::names::Names;
use crate::reply::{Answer, CommandFault, no_tile, spent_line};
use crate::spent::spent_text;
use std::alloc::{AllocError, Global};
use wt_pattern::{Pattern, push_pattern};
use wt_seq::Seq;
use wt_tile::Axis;
use wt_window::WindowEnd;
use wt_write::{end_line, push_number, push_word};

/// The first of two numbers that is no tile.
fn first_no_tile(count: usize, a: u16, b: u16) -> Option<u16>
    ensures { result ≡ spec.first_no_tile count a b }
{
    if usize::from(a) >= count {
        return Some(a);
    }
    if usize::from(b) >= count {
        Some(b)
    } else {
        None
    }
}

fn window_text(alloc: Global, window: &Pattern) -> Result<Vec<u8>, AllocError>
    ensures { IfOk result (λ text. text.items ≡ spec.window_text window.now) }
{
    let mut text = Vec::new(alloc);
    push_word(&mut text, "window ")?;
    push_number(&mut text, window.width() as u64)?;
    push_word(&mut text, " ")?;
    push_number(&mut text, window.height() as u64)?;
    end_line(&mut text)?;
    push_pattern(&mut text, window)?;
    Ok(text)
}

/// `surround S A a b r B`: the least window of two tiles.
pub fn surround(
    alloc: Global,
    names: &Names,
    set: &[u8],
    axis: Axis,
    a: u16,
    b: u16,
    radius: u8,
    budget: u64,
) -> Result<Answer, CommandFault>
    requires { radius ≤ 4 }
    ensures { Replies (IsSurroundReply names.now set.now axis a b radius budget) result }
{
    let set = set_named(alloc, names, set)?;
    if let Some(t) = first_no_tile(set.len(), a, b) {
        return Err(no_tile(alloc, t));
    }
    match wt_window::surround(alloc, set, axis, a, b, radius, budget) {
        Ok(None) => Ok(Answer::Says(Seq::new(b"none\n".to_vec(alloc)?))),
        Ok(Some(window)) => Ok(Answer::Says(Seq::new(window_text(alloc, &window)?))),
        Err(WindowEnd::Spent) => Err(spent_line(spent_text(alloc, axis, a, b)?)),
        Err(WindowEnd::OutOfMemory) => Err(CommandFault::OutOfMemory),
    }
}
