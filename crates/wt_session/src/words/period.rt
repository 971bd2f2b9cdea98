// The word `period`.
ghost use Rattle.std.specs.Prelude.{◌≡◌, IfOk, string_bytes};
ghost use Rattle.wt_session.specs.Said.{Replies};
ghost use Rattle.wt_session.specs.Period.{period_text, period_reply};

use crate::lookup::pattern_named;
use crate::names::Names;
use crate::reply::{Answer, CommandFault};
use std::alloc::{AllocError, Global};
use wt_pattern::period_fault;
use wt_seq::Seq;

fn period_line(alloc: Global, fault: Option<(usize, usize)>) -> Result<String, AllocError>
    ensures { IfOk result (λ text. string_bytes text ≡ period_text fault) }
{
    match fault {
        Some((x, y)) => format!(in alloc; "fault at {x} {y}\n"),
        None => String::from_str(alloc, "period\n"),
    }
}

/// `period P x y`: the first cell that the vector takes to another tile, or that it is a period.
pub fn period(
    alloc: Global,
    names: &Names,
    name: &[u8],
    dx: i64,
    dy: i64,
) -> Result<Answer, CommandFault>
    ensures { Replies (λ reply. reply ≡ period_reply names.now name.now dx dy) result }
{
    let sheet = pattern_named(alloc, names, name)?;
    let text = period_line(alloc, period_fault(sheet.pattern(), dx, dy))?;
    Ok(Answer::Says(Seq::new(text.into_bytes())))
}
