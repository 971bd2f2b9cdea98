// The check of layers that come in behind their tile set.
ghost use Rattle.std.specs.Prelude.{◌≡◌, IfOk, string_bytes};
ghost use Rattle.wt_line.specs.Faults.{ReadsText};
ghost use Rattle.wt_tile.specs.Sets.{set_fault};
ghost use Rattle.wt_pattern.specs.Plain.{IsPlain};
ghost use Rattle.wt_program.specs.SetTexts.{IsListReply};
ghost use Rattle.wt_program.specs.StripChecks as spec;

use crate::fault::fault_reply;
use crate::reply::{Reply, refused};
use crate::set_text::{set_at, set_refusal};
use std::alloc::{AllocError, Global};
use wt_line::{Place, TextFault, text_end};
use wt_seq::Seq;
use wt_strip::{Layers, StripFault, check_strip, strip_at};
use wt_tile::{SetRef, TileList};

/// A tile set, which may have no tile or repeat one, and then layers, to the end of the bytes.
#[tactic(auto, using(wt_line::proofs::Ended::more_fails), unfolding(wt_text::specs::Readers::whole_text, wt_text::specs::Readers::both_parts))]
fn read_both(alloc: Global, bytes: &[u8]) -> Result<(TileList, Layers), TextFault>
    ensures read { ReadsText (λ x. (x.0, x.1)) result (spec.set_and_layers bytes.now) }
    ensures plain { IfOk result (λ x. IsPlain (set_fault x.0)) }
{
    let (list, place) = set_at(alloc, Place::new(bytes))?;
    let (layers, place) = strip_at(alloc, place)?;
    text_end(place)?;
    Ok((list, layers))
}

/// The line of layers that are exact.
fn exact_line(alloc: Global, layers: &Layers) -> Result<String, AllocError>
    ensures { IfOk result (λ text. string_bytes text ≡ spec.exact_text layers.now) }
{
    let width = layers.width;
    let height = layers.layers.as_slice().len();
    format!(in alloc; "accepted empty {width} {height}\n")
}

/// The line of a row that isn't in order, or not of its layer.
fn wrong_row_line(alloc: Global, layer: usize, row: usize) -> Result<String, AllocError>
    ensures { IfOk result (λ text. string_bytes text ≡ spec.wrong_row_text layer row) }
{
    format!(in alloc; "refused strip layer {layer} row {row}\n")
}

/// The line of a layer that lists too few rows.
fn missing_line(alloc: Global, layer: usize) -> Result<String, AllocError>
    ensures { IfOk result (λ text. string_bytes text ≡ spec.missing_text layer) }
{
    format!(in alloc; "refused strip layer {layer} missing\n")
}

/// The refusal of layers by their first fault.
fn refusal(alloc: Global, fault: StripFault) -> Result<Reply, AllocError>
    ensures { IfOk result (λ reply. reply ≡ Reply.Refused (spec.strip_fault_text fault)) }
{
    match fault {
        StripFault::Shape => refused(alloc, b"refused strip shape\n"),
        StripFault::Order { layer, row } | StripFault::Row { layer, row } => {
            Ok(Reply::Refused(Seq::new(wrong_row_line(alloc, layer, row)?.into_bytes())))
        }
        StripFault::Missing { layer } => {
            Ok(Reply::Refused(Seq::new(missing_line(alloc, layer)?.into_bytes())))
        }
    }
}

/// That layers are exact.
fn accepted(alloc: Global, layers: &Layers) -> Result<Reply, AllocError>
    ensures { IfOk result (λ reply. reply ≡ Reply.Answered (spec.exact_text layers.now)) }
{
    Ok(Reply::Answered(Seq::new(exact_line(alloc, layers)?.into_bytes())))
}

/// The reply to layers over a set.
#[tactic(auto, using(crate::proofs::StripReplies::exact_verdict, crate::proofs::StripReplies::faulty_verdict))]
fn verdict(alloc: Global, set: SetRef<'_>, layers: &Layers) -> Result<Reply, AllocError>
    ensures { IfOk result (spec.IsLayersVerdict layers.now set.entry.list.now.tiles) }
{
    match check_strip(set, layers) {
        Ok(()) => accepted(alloc, layers),
        Err(fault) => refusal(alloc, fault),
    }
}

/// The reply to a list of tiles and to layers.
#[tactic(auto, using(crate::proofs::SetReplies::plain_fault, crate::proofs::SetReplies::answered_list, crate::proofs::SetReplies::refused_list))]
fn list_reply(alloc: Global, list: &TileList, layers: &Layers) -> Result<Reply, AllocError>
    requires plain { IsPlain (set_fault list.now) }
    ensures { IfOk result (IsListReply (spec.IsLayersVerdict layers.now) list.now (set_fault list.now)) }
{
    match SetRef::new(list) {
        Ok(set) => verdict(alloc, set, layers),
        Err(fault) => set_refusal(alloc, fault),
    }
}

/// The reply of `strip check` to the bytes of a tile set and of layers.
pub fn strip_check_reply(alloc: Global, bytes: &[u8]) -> Result<Reply, AllocError>
    ensures { IfOk result (spec.IsStripCheckReply bytes.now) }
{
    match read_both(alloc, bytes) {
        Ok((list, layers)) => list_reply(alloc, &list, &layers),
        Err(fault) => fault_reply(alloc, fault),
    }
}
