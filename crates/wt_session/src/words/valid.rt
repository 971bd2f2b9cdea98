// The word `valid`.
ghost use Rattle.std.specs.Prelude.{◌≡◌, IfOk, string_bytes};
ghost use Rattle.wt_session.specs.Said.{Replies};
ghost use Rattle.wt_session.specs.Valid.{clash_text, validity_text, valid_reply};

use crate::lookup::pattern_named;
use crate::names::Names;
use crate::reply::{Answer, CommandFault, refused};
use std::alloc::{AllocError, Global};
use wt_grid::axis_number;
use wt_pattern::Fault;
use wt_seq::Seq;

fn clash_line(alloc: Global, fault: Fault) -> Result<String, AllocError>
    ensures { IfOk result (λ text. string_bytes text ≡ clash_text fault) }
{
    let axis = axis_number(fault.axis);
    let x = fault.x;
    let y = fault.y;
    format!(in alloc; "fault axis {axis} at {x} {y}\n")
}

fn validity_line(alloc: Global, fault: Option<Fault>) -> Result<String, AllocError>
    ensures { IfOk result (λ text. string_bytes text ≡ validity_text fault) }
{
    match fault {
        Some(fault) => clash_line(alloc, fault),
        None => String::from_str(alloc, "valid\n"),
    }
}

/// `valid P`: the first fault, or that there is none.
pub fn valid(alloc: Global, names: &Names, name: &[u8]) -> Result<Answer, CommandFault>
    ensures { Replies (λ reply. reply ≡ valid_reply names.now name.now) result }
{
    let sheet = pattern_named(alloc, names, name)?;
    let Some(set) = sheet.over() else {
        return Err(refused(alloc, b"refused no set\n"));
    };
    let text = validity_line(alloc, wt_pattern::valid(set, sheet.pattern()))?;
    Ok(Answer::Says(Seq::new(text.into_bytes())))
}
