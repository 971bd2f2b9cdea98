//! The word `markers`.
ghost use Rattle.std.specs.Prelude.{◌≡◌, ◌≤◌, IfOk, map};
ghost use Rattle.wt_session.specs.Said.{Replies};
ghost use Rattle.wt_session.specs.Markers.{IsMarkersReply};
ghost use Rattle.wt_session.specs.Markers as spec;

use crate::lookup::set_named;
use crate::names::Names;
use crate::reply::{Answer, CommandFault, spent_line};
use crate::rows::push_lists;
use crate::spent::spent_text;
use std::alloc::{AllocError, Global};
use wt_marker::marker_classes;
use wt_seq::Seq;
use wt_tile::Axis;
use wt_window::{TableEnd, dominoes};
use wt_write::{end_line, push_number, push_word};

fn classes_text(alloc: Global, classes: &[Vec<u16>]) -> Result<Vec<u8>, AllocError>
    ensures { IfOk result (λ text. text.items ≡ spec.classes_text (map (λ c. c.items) classes.now)) }
{
    let mut text = Vec::new(alloc);
    push_word(&mut text, "classes ")?;
    push_number(&mut text, classes.len() as u64)?;
    end_line(&mut text)?;
    push_lists(&mut text, classes)?;
    Ok(text)
}

/// `markers S A r B`: the kept classes of markers.
pub fn markers(
    alloc: Global,
    names: &Names,
    set: &[u8],
    axis: Axis,
    radius: u8,
    budget: u64,
) -> Result<Answer, CommandFault>
    requires { radius ≤ 4 }
    ensures { Replies (IsMarkersReply names.now set.now axis radius budget) result }
{
    let set = set_named(alloc, names, set)?;
    let one = match dominoes(alloc, set, Axis::One, radius, budget) {
        Ok(one) => one,
        Err(TableEnd::Spent { a, b }) => {
            return Err(spent_line(spent_text(alloc, Axis::One, a, b)?));
        }
        Err(TableEnd::OutOfMemory) => return Err(CommandFault::OutOfMemory),
    };
    let two = match dominoes(alloc, set, Axis::Two, radius, budget) {
        Ok(two) => two,
        Err(TableEnd::Spent { a, b }) => {
            return Err(spent_line(spent_text(alloc, Axis::Two, a, b)?));
        }
        Err(TableEnd::OutOfMemory) => return Err(CommandFault::OutOfMemory),
    };
    let classes = marker_classes(alloc, set, axis, &one, &two)?;
    Ok(Answer::Says(Seq::new(classes_text(alloc, &classes)?)))
}
