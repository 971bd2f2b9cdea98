//! Refusals that tell a level, and the sets of a chain.
ghost use Rattle.std.specs.Prelude.{◌≡◌, ◌++◌, IfOk, OnOk, string_bytes};
ghost use Rattle.wt_check.specs.Texts.{sizes_behind};
ghost use Rattle.wt_session.specs.Said.{IfRefused, IsRefusal};
ghost use Rattle.wt_session.specs.Replies.{stops};
ghost use Rattle.wt_session.specs.Levels.{IsEndReply};
ghost use Rattle.wt_session.specs.Levels as spec;

use crate::reply::{CommandFault, limit_line, refused, refused_line, spent_line};
use std::alloc::{AllocError, Global};
use wt_chain::{coarse_set, first_count};
use wt_grid::axis_number;
use wt_search::SearchEnd;
use wt_step::RawLink;
use wt_tile::Axis;
use wt_write::{end_line, number_behind, push_number, push_word};

fn level_text(alloc: Global, refusal: &str, level: usize) -> Result<String, AllocError>
    ensures { IfOk result (λ text. string_bytes text ≡ spec.level_text refusal.now level) }
{
    format!(in alloc; "{refusal} level {level}\n")
}

fn spent_text(alloc: Global, level: usize, axis: Axis, a: u16, b: u16) -> Result<String, AllocError>
    ensures { IfOk result (λ text. string_bytes text ≡ spec.level_spent_text level axis a b) }
{
    let axis = axis_number(axis);
    format!(in alloc; "spent level {level} axis {axis} pair {a} {b}\n")
}

fn not_growing_text(alloc: Global, start: usize) -> Result<String, AllocError>
    ensures { IfOk result (λ text. string_bytes text ≡ spec.not_growing_text start) }
{
    format!(in alloc; "refused not growing start {start}\n")
}

/// A line that begins with `refused`, with its level.
pub fn refused_at(alloc: Global, refusal: &str, level: usize) -> CommandFault
    ensures { IsRefusal 1 (spec.level_text refusal.now level) result }
{
    match level_text(alloc, refusal, level) {
        Ok(line) => refused_line(line),
        Err(AllocError) => CommandFault::OutOfMemory,
    }
}

/// A line that begins with `limit`, with its level.
pub fn limit_at(alloc: Global, refusal: &str, level: usize) -> CommandFault
    ensures { IsRefusal 5 (spec.level_text refusal.now level) result }
{
    match level_text(alloc, refusal, level) {
        Ok(line) => limit_line(line),
        Err(AllocError) => CommandFault::OutOfMemory,
    }
}

/// A window or a tree of a level that is spent.
pub fn spent_at(alloc: Global, level: usize, axis: Axis, a: u16, b: u16) -> CommandFault
    ensures { IsRefusal 6 (spec.level_spent_text level axis a b) result }
{
    match spent_text(alloc, level, axis, a, b) {
        Ok(line) => spent_line(line),
        Err(AllocError) => CommandFault::OutOfMemory,
    }
}

fn not_growing(alloc: Global, start: usize) -> CommandFault
    ensures { IsRefusal 1 (spec.not_growing_text start) result }
{
    match not_growing_text(alloc, start) {
        Ok(line) => refused_line(line),
        Err(AllocError) => CommandFault::OutOfMemory,
    }
}

/// Why there is no step or no chain, as a refusal.
pub fn end_fault(alloc: Global, end: SearchEnd) -> CommandFault
    ensures { IfRefused (λ status line. IsEndReply end (stops status line)) result }
{
    match end {
        SearchEnd::Spent { level, axis, a, b } => spent_at(alloc, level, axis, a, b),
        SearchEnd::NoMarker { level } => refused_at(alloc, "refused no marker", level),
        SearchEnd::EmptySet { level } => refused_at(alloc, "refused empty set", level),
        SearchEnd::TooManyTiles { level } => limit_at(alloc, "limit tiles", level),
        SearchEnd::Repeated { level } => refused_at(alloc, "refused repeated", level),
        SearchEnd::TooManyNodes { level } => limit_at(alloc, "limit nodes", level),
        SearchEnd::NotGrowing { start } => not_growing(alloc, start),
        SearchEnd::Levels => refused(alloc, b"refused levels\n"),
        SearchEnd::OutOfMemory => CommandFault::OutOfMemory,
    }
}

/// Appends the numbers of tiles of the coarse sets.
fn push_sizes(out: &mut Vec<u8>, links: &[RawLink]) -> Result<(), AllocError>
    ensures { OnOk result (out.new.items ≡ out.old.items ++ sizes_behind links.now) }
{
    for link in links {
        number_behind(out, coarse_set(link).tiles.as_slice().len() as u64)?;
    }
    Ok(())
}

/// Appends the line of the numbers of tiles by level.
pub fn push_sets(out: &mut Vec<u8>, links: &[RawLink]) -> Result<(), AllocError>
    ensures { OnOk result (out.new.items ≡ out.old.items ++ spec.sets_text links.now) }
{
    push_word(out, "sets ")?;
    push_number(out, first_count(links) as u64)?;
    push_sizes(out, links)?;
    end_line(out)?;
    Ok(())
}
