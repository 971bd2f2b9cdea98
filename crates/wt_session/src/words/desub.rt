// The word `desub`.
ghost use Rattle.std.specs.Prelude.{◌≡◌, IfOk, MatchOption, string_bytes, None, Some, length, slice_get};
ghost use Rattle.wt_pattern.specs.Patterns.{IsPattern};
ghost use Rattle.wt_pattern.specs.Validity.{first_stranger};
ghost use Rattle.wt_step.specs.Links.{fine_of, coarse_of};
ghost use Rattle.wt_step.specs.Views.{link_of};
ghost use Rattle.wt_step.specs.Coarse.{desub_fault};
ghost use Rattle.wt_chain.specs.Sets as chain_sets;
ghost use Rattle.wt_session.specs.Said.{Replies, IsRefusal};
ghost use Rattle.wt_session.specs.Texts.{not_valid_text};
ghost use Rattle.wt_session.specs.Desub.{step_text, coarse_reply, IsTakenReply, IsSetReply, IsStepReply, IsDesubReply};

use crate::lookup::{chain_named, pattern_named};
use crate::names::Names;
use crate::reply::{Answer, CommandFault, refused, refused_line};
use crate::texts::{coarse_lines, not_valid_line};
use crate::value::{Sheet, Value};
use std::alloc::{AllocError, Global};
use wt_chain::{Accepted, same_set};
use wt_pattern::{Fault, Pattern};
use wt_seq::Seq;
use wt_step::{Coarse, DesubFault, LinkRef, desubstitute};
use wt_tile::SetRef;

/// The line of a step past the last.
fn step_line(alloc: Global, step: usize) -> Result<String, AllocError>
    ensures { IfOk result (λ text. string_bytes text ≡ step_text step) }
{
    format!(in alloc; "refused step {step}\n")
}

/// Neighbours that don't match.
fn clash(alloc: Global, fault: Fault) -> CommandFault
    ensures { IsRefusal 1 (not_valid_text fault) result }
{
    match not_valid_line(alloc, fault) {
        Ok(line) => refused_line(line),
        Err(AllocError) => CommandFault::OutOfMemory,
    }
}

/// A coarse pattern over a step's coarse set, bound to a name.
#[tactic(auto, using(crate::proofs::Desub::coarse_tiles))]
fn bound_coarse(
    alloc: Global,
    name: &Seq<u8>,
    link: LinkRef<'_>,
    coarse: Coarse,
) -> Result<Answer, CommandFault>
    requires { IsPattern (coarse_of (link_of link)).tiles coarse.pattern }
    ensures { Replies (λ reply. reply ≡ coarse_reply name.now (link_of link.entry) coarse.pattern coarse.low_cut coarse.high_cut) result }
{
    let text = Seq::new(coarse_lines(alloc, &coarse)?);
    let set = link.coarse().copy(alloc)?;
    let name = name.copy(alloc)?;
    let value = Value::Pattern(Sheet::new(coarse.pattern, Some(set)));
    Ok(Answer::Binds { name, value, text })
}

/// What comes of a pattern of tiles: its coarse pattern, or why it has none.
#[tactic(auto, using(crate::proofs::Desub::taken_told, crate::proofs::Desub::clash_told, crate::proofs::Desub::small_told))]
fn taken(
    alloc: Global,
    name: &Seq<u8>,
    link: LinkRef<'_>,
    p: &Pattern,
) -> Result<Answer, CommandFault>
    requires { first_stranger (length (fine_of (link_of link)).tiles) p.now ≡ None }
    ensures { Replies (IsTakenReply name.now (link_of link.entry) p.now (desub_fault (link_of link.entry) p.now)) result }
{
    match desubstitute(alloc, link, p) {
        Ok(coarse) => bound_coarse(alloc, name, link, coarse),
        Err(DesubFault::NotValid(fault)) => Err(clash(alloc, fault)),
        Err(DesubFault::TooSmall) => Err(refused(alloc, b"refused too small\n")),
        Err(DesubFault::OutOfMemory) => Err(CommandFault::OutOfMemory),
    }
}

/// What comes of a pattern over a set by a step, where the set is that of the step.
#[tactic(auto, using(crate::proofs::Desub::same_tiles, crate::proofs::Desub::own_set, crate::proofs::Desub::other_set))]
fn taken_over(
    alloc: Global,
    name: &Seq<u8>,
    link: LinkRef<'_>,
    set: SetRef<'_>,
    p: &Pattern,
) -> Result<Answer, CommandFault>
    requires { first_stranger (length set.list.now.tiles) p.now ≡ None }
    ensures { Replies (IsSetReply name.now (link_of link.entry) p.now (chain_sets.same_set set.entry.list.now (fine_of (link_of link.entry)))) result }
{
    if same_set(set.list, link.fine().list) {
        taken(alloc, name, link, p)
    } else {
        Err(refused(alloc, b"refused other set\n"))
    }
}

/// The step with this number, or None past the last.
fn step_at(chain: &Accepted, step: usize) -> Option<LinkRef<'_>>
    ensures { MatchOption result (slice_get chain.now.steps step ≡ None) (λ link. slice_get chain.now.steps step ≡ Some (link_of link)) }
{
    if step < chain.steps() {
        Some(chain.step(step))
    } else {
        None
    }
}

/// What comes of a pattern over a set by the step that is asked for.
fn stepped(
    alloc: Global,
    name: &Seq<u8>,
    chain: &Accepted,
    step: usize,
    set: SetRef<'_>,
    p: &Pattern,
) -> Result<Answer, CommandFault>
    requires { first_stranger (length set.list.now.tiles) p.now ≡ None }
    ensures { Replies (IsStepReply name.now step p.now set.entry.list.now (slice_get chain.now.steps step)) result }
{
    match step_at(chain, step) {
        Some(link) => taken_over(alloc, name, link, set, p),
        None => Err(refused_line(step_line(alloc, step)?)),
    }
}

/// `desub N C k P`: the coarse pattern of step k, bound to a name.
#[tactic(auto, using(crate::proofs::Desub::tiles_over))]
pub fn desub(
    alloc: Global,
    names: &Names,
    name: &Seq<u8>,
    chain: &[u8],
    step: usize,
    pattern: &[u8],
) -> Result<Answer, CommandFault>
    ensures { Replies (IsDesubReply names.now name.now chain.now step pattern.now) result }
{
    let chain = chain_named(alloc, names, chain)?;
    let sheet = pattern_named(alloc, names, pattern)?;
    let Some(set) = sheet.over() else {
        return Err(refused(alloc, b"refused no set\n"));
    };
    stepped(alloc, name, chain, step, set, sheet.pattern())
}
