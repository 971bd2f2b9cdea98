// A script, from its bytes to its commands.
ghost use Rattle.std.specs.Prelude.{◌≡◌, ◌++◌, IfOk, OnOk, Some};
ghost use Rattle.wt_text.specs.Lines.{lines};
ghost use Rattle.wt_line.specs.Faults.{ReadsText};
ghost use Rattle.wt_line.specs.Left.{lines_left, ReadsPlace};
ghost use Rattle.wt_script.specs.Parts.{part_of};
ghost use Rattle.wt_script.specs.Script.{script};
ghost use Rattle.wt_script.specs.Script as spec;
ghost use Rattle.wt_script.specs.Fits.{Fits, AllFitting};
ghost use Rattle.wt_script.specs.Seen.{PieceFits, said};

use crate::chains::{bound_at, cert_at, expand_at, image_at, lighten_at, upgrade_at};
use crate::counts::{census_at, primitive_at, seeds_at};
use crate::kinds::{Kind, kind_on};
use crate::own::{check_at, pattern_at, set_at};
use crate::partitions::{code_at, induce_at, partition_at};
use crate::patterns::{draw_at, json_at, period_at, valid_at};
use crate::sets::{fuse_at, same_at};
use crate::steps::{derive_at, desub_at, search_at};
use crate::windows::{dominoes_at, markers_at, surround_at};
use crate::word::{Command, Word};
use std::alloc::{AllocFailed, Global};
use wt_line::{Place, TextFault, next_line};

/// The command that the next line begins, by its first word.
fn word_at(alloc: Global, kind: Kind, place: Place<'_>) -> Result<(Word, Place<'_>), TextFault>
    ensures read { ReadsPlace (part_of (Some kind)) result place.entry }
    ensures fits { IfOk result (λ x. Fits x.0) }
{
    match kind {
        Kind::Tiles => set_at(alloc, place),
        Kind::Pattern => pattern_at(alloc, place),
        Kind::Valid => valid_at(alloc, place),
        Kind::Period => period_at(alloc, place),
        Kind::Dominoes => dominoes_at(alloc, place),
        Kind::Surround => surround_at(alloc, place),
        Kind::Markers => markers_at(alloc, place),
        Kind::Fuse => fuse_at(alloc, place),
        Kind::Same => same_at(alloc, place),
        Kind::Derive => derive_at(alloc, place),
        Kind::Search => search_at(alloc, place),
        Kind::Cert => cert_at(alloc, place),
        Kind::Check => check_at(alloc, place),
        Kind::Upgrade => upgrade_at(alloc, place),
        Kind::Lighten => lighten_at(alloc, place),
        Kind::Expand => expand_at(alloc, place),
        Kind::Image => image_at(alloc, place),
        Kind::Desub => desub_at(alloc, place),
        Kind::Bound => bound_at(alloc, place),
        Kind::Primitive => primitive_at(alloc, place),
        Kind::Seeds => seeds_at(alloc, place),
        Kind::Census => census_at(alloc, place),
        Kind::Draw => draw_at(alloc, place),
        Kind::Json => json_at(alloc, place),
        Kind::Torus => partition_at(alloc, place),
        Kind::Code => code_at(alloc, place),
        Kind::Induce => induce_at(alloc, place),
    }
}

fn is_remark(line: &[u8]) -> bool
    ensures { result ≡ spec.is_remark line.now }
{
    match line {
        [] => true,
        [first, ..] => *first == b'#',
    }
}

/// A line that is skipped, or a command with its own lines.
fn piece_at(alloc: Global, place: Place<'_>) -> Result<(Option<Command>, Place<'_>), TextFault>
    ensures read { ReadsText (λ x. (x.0, lines_left x.1)) result (spec.piece_at place.entry.number (lines place.entry.bytes.now)) }
    ensures fits { IfOk result (λ x. PieceFits x.0) }
{
    let (line, next) = next_line(place)?;
    if is_remark(line) {
        return Ok((None, next));
    }
    let Some(kind) = kind_on(line) else {
        return Err(TextFault::Syntax { line: place.number });
    };
    let (word, next) = word_at(alloc, kind, place)?;
    let command = Command {
        line: place.number,
        word,
    };
    Ok((Some(command), next))
}

/// A piece behind those before it; a line that is skipped leaves nothing.
fn keep(commands: &mut Vec<Command>, piece: Option<Command>) -> Result<(), AllocFailed<Command>>
    ensures { OnOk result (commands.new.items ≡ commands.old.items ++ said piece) }
{
    match piece {
        Some(command) => commands.push(command),
        None => Ok(()),
    }
}

/// The commands of a script, each with its own lines, or the first fault of the text.
#[tactic(auto, using(crate::proofs::Pieces::is_done))]
pub fn parse_script(alloc: Global, bytes: &[u8]) -> Result<Vec<Command>, TextFault>
    ensures read { ReadsText (λ cs. cs.items) result (script bytes.now) }
    ensures fits { IfOk result (λ cs. AllFitting cs.items) }
{
    let mut commands = Vec::new(alloc);
    let mut place = Place::new(bytes);
    while !place.bytes.is_empty() {
        let (piece, next) = piece_at(alloc, place)?;
        keep(&mut commands, piece)?;
        place = next;
    }
    Ok(commands)
}
