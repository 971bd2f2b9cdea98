// The layers of valid rows over a tile set, up to an empty one.
ghost use Rattle.std.specs.Prelude.{◌≡◌, ◌≤◌, IfOk, string_bytes};
ghost use Rattle.wt_text.specs.Words.{value_from};
ghost use Rattle.wt_tile.specs.Sets.{set_fault};
ghost use Rattle.wt_pattern.specs.Plain.{IsPlain};
ghost use Rattle.wt_strip.specs.declared.limits.TheConstants.{MAX_COLUMNS, MAX_LAYERS};
ghost use Rattle.wt_program.specs.SetTexts.{IsListReply};
ghost use Rattle.wt_program.specs.Strips as spec;

use crate::fault::fault_reply;
use crate::number::{LayerLimit, RowWidth, layers_of, width_of};
use crate::reply::Reply;
use crate::set_text::{read_set_text, set_refusal};
use std::alloc::{AllocError, Global};
use wt_pattern::{Pattern, push_pattern};
use wt_seq::Seq;
use wt_strip::{Layers, StripEnd, Stripped, push_strip, strip};
use wt_tile::{SetRef, TileList};

/// The number of layers, and their text.
fn empty_lines(alloc: Global, layers: &Layers) -> Result<Vec<u8>, AllocError>
    requires { 1 ≤ layers.now.width }
    ensures { IfOk result (λ text. text.items ≡ spec.empty_text layers.now) }
{
    let height = layers.layers.as_slice().len();
    let head = format!(in alloc; "empty {height}\n")?;
    let mut text = head.into_bytes();
    push_strip(&mut text, layers)?;
    Ok(text)
}

/// The rows of a pattern, the top one first.
fn filled_lines(alloc: Global, pattern: &Pattern) -> Result<Vec<u8>, AllocError>
    ensures { IfOk result (λ text. text.items ≡ spec.filled_text pattern.now) }
{
    let mut text = b"filled\n".to_vec(alloc)?;
    push_pattern(&mut text, pattern)?;
    Ok(text)
}

/// The line of the layer with which the rows are too many.
fn many_rows_line(alloc: Global, layer: usize) -> Result<String, AllocError>
    ensures { IfOk result (λ text. string_bytes text ≡ spec.many_rows_text layer) }
{
    format!(in alloc; "limit rows layer {layer}\n")
}

/// The reply to what was made.
fn told(alloc: Global, answer: Result<Stripped, StripEnd>) -> Result<Reply, AllocError>
    requires { spec.IsWideAnswer answer }
    ensures { IfOk result (spec.IsToldStrip answer) }
{
    match answer {
        Ok(Stripped::Empty(layers)) => {
            Ok(Reply::Answered(Seq::new(empty_lines(alloc, &layers)?)))
        }
        Ok(Stripped::Filled(pattern)) => {
            Ok(Reply::Answered(Seq::new(filled_lines(alloc, &pattern)?)))
        }
        Err(StripEnd::TooManyRows { layer }) => {
            Ok(Reply::Limit(Seq::new(many_rows_line(alloc, layer)?.into_bytes())))
        }
        Err(StripEnd::OutOfMemory) => Err(AllocError),
    }
}

/// The reply to the tiles of a set.
#[tactic(auto, using(crate::proofs::StripReplies::wide_answer, crate::proofs::StripReplies::told_strip))]
fn layers_reply(
    alloc: Global,
    set: SetRef<'_>,
    width: usize,
    limit: usize,
) -> Result<Reply, AllocError>
    requires wide { 1 ≤ width }
    requires narrow { width ≤ MAX_COLUMNS }
    requires high { 1 ≤ limit }
    requires low { limit ≤ MAX_LAYERS }
    ensures { IfOk result (spec.IsLayersReply width limit set.entry.list.now.tiles) }
{
    told(alloc, strip(alloc, set, width, limit))
}

/// The reply to a list of tiles.
#[tactic(auto, using(crate::proofs::SetReplies::plain_fault, crate::proofs::SetReplies::answered_list, crate::proofs::SetReplies::refused_list))]
fn list_reply(
    alloc: Global,
    list: &TileList,
    width: usize,
    limit: usize,
) -> Result<Reply, AllocError>
    requires wide { 1 ≤ width }
    requires narrow { width ≤ MAX_COLUMNS }
    requires high { 1 ≤ limit }
    requires low { limit ≤ MAX_LAYERS }
    requires plain { IsPlain (set_fault list.now) }
    ensures { IfOk result (IsListReply (spec.IsLayersReply width limit) list.now (set_fault list.now)) }
{
    match SetRef::new(list) {
        Ok(set) => layers_reply(alloc, set, width, limit),
        Err(fault) => set_refusal(alloc, fault),
    }
}

/// The reply of `strip` to the bytes of a tile set.
pub fn strip_reply(
    alloc: Global,
    width: RowWidth<'_>,
    limit: LayerLimit<'_>,
    bytes: &[u8],
) -> Result<Reply, AllocError>
    ensures { IfOk result (spec.IsStripReply width.entry.text.now limit.entry.text.now bytes.now) }
{
    match read_set_text(alloc, bytes) {
        Ok(list) => list_reply(alloc, &list, width_of(width), layers_of(limit)),
        Err(fault) => fault_reply(alloc, fault),
    }
}
