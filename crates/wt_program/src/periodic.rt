// The least rectangle over a tile set that wraps round.
ghost use Rattle.std.specs.Prelude.{◌≡◌, ◌≤◌, ℕ, IfOk, string_bytes};
ghost use Rattle.wt_text.specs.Words.{value_from};
ghost use Rattle.wt_tile.specs.Sets.{set_fault};
ghost use Rattle.wt_periodic.specs.declared.least.TheConstants.{MAX_LIMIT};
ghost use Rattle.wt_pattern.specs.Plain.{IsPlain};
ghost use Rattle.wt_program.specs.SetTexts.{IsListReply};
ghost use Rattle.wt_program.specs.Periodics as spec;

use crate::fault::fault_reply;
use crate::number::{Budget, SizeLimit, budget_of, limit_of};
use crate::reply::Reply;
use crate::set_text::{read_set_text, set_refusal};
use std::alloc::{AllocError, Global};
use wt_pattern::{Pattern, push_pattern};
use wt_periodic::{WrapEnd, least_wrap};
use wt_seq::Seq;
use wt_tile::{SetRef, TileList};

/// The rectangle with its width and height, the top row first.
fn wrap_lines(alloc: Global, wrap: &Pattern) -> Result<Vec<u8>, AllocError>
    ensures { IfOk result (λ text. text.items ≡ spec.wrap_text wrap.now) }
{
    let width = wrap.width();
    let height = wrap.height();
    let head = format!(in alloc; "wrap {width} {height}\n")?;
    let mut text = head.into_bytes();
    push_pattern(&mut text, wrap)?;
    Ok(text)
}

/// The line that tells that no size up to a limit has a rectangle.
fn none_line(alloc: Global, limit: usize) -> Result<String, AllocError>
    ensures { IfOk result (λ text. string_bytes text ≡ spec.none_text limit) }
{
    format!(in alloc; "none {limit}\n")
}

/// The line of a size on which the budget was spent.
fn spent_line(alloc: Global, w: usize, h: usize) -> Result<String, AllocError>
    ensures { IfOk result (λ text. string_bytes text ≡ spec.spent_text w h) }
{
    format!(in alloc; "spent size {w} {h}\n")
}

/// The reply to what a search answered.
fn told(
    alloc: Global,
    limit: usize,
    answer: Result<Option<Pattern>, WrapEnd>,
) -> Result<Reply, AllocError>
    ensures { IfOk result (spec.IsToldWrap limit answer) }
{
    match answer {
        Ok(Some(wrap)) => Ok(Reply::Answered(Seq::new(wrap_lines(alloc, &wrap)?))),
        Ok(None) => Ok(Reply::Answered(Seq::new(none_line(alloc, limit)?.into_bytes()))),
        Err(WrapEnd::Spent { w, h }) => {
            Ok(Reply::Spent(Seq::new(spent_line(alloc, w, h)?.into_bytes())))
        }
        Err(WrapEnd::OutOfMemory) => Err(AllocError),
    }
}

/// The reply to the tiles of a set.
#[tactic(auto, using(crate::proofs::SetReplies::told_wrap))]
fn wrap_reply(
    alloc: Global,
    set: SetRef<'_>,
    limit: usize,
    budget: u64,
) -> Result<Reply, AllocError>
    requires low { 1 ≤ limit }
    requires high { limit ≤ MAX_LIMIT }
    ensures { IfOk result (spec.IsWrapReply limit budget set.entry.list.now.tiles) }
{
    told(alloc, limit, least_wrap(alloc, set, limit, budget))
}

/// The reply to a list of tiles.
#[tactic(auto, using(crate::proofs::SetReplies::plain_fault, crate::proofs::SetReplies::answered_list, crate::proofs::SetReplies::refused_list))]
fn list_reply(
    alloc: Global,
    list: &TileList,
    limit: usize,
    budget: u64,
) -> Result<Reply, AllocError>
    requires low { 1 ≤ limit }
    requires high { limit ≤ MAX_LIMIT }
    requires plain { IsPlain (set_fault list.now) }
    ensures { IfOk result (IsListReply (spec.IsWrapReply limit budget) list.now (set_fault list.now)) }
{
    match SetRef::new(list) {
        Ok(set) => wrap_reply(alloc, set, limit, budget),
        Err(fault) => set_refusal(alloc, fault),
    }
}

/// The reply of `periodic` to the bytes of a tile set.
pub fn periodic_reply(
    alloc: Global,
    limit: SizeLimit<'_>,
    budget: Budget<'_>,
    bytes: &[u8],
) -> Result<Reply, AllocError>
    ensures { IfOk result (spec.IsPeriodicReply limit.entry.text.now budget.entry.text.now bytes.now) }
{
    match read_set_text(alloc, bytes) {
        Ok(list) => list_reply(alloc, &list, limit_of(limit), budget_of(budget)),
        Err(fault) => fault_reply(alloc, fault),
    }
}
