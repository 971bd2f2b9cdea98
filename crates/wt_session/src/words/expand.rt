// The word `expand`.
ghost use Rattle.std.specs.Prelude.{◌≡◌, ◌≤◌, None, Some, IfOk};
ghost use Rattle.wt_chain.specs.Faults.{chain_fault};
ghost use Rattle.wt_chain.specs.Sets.{set_at};
ghost use Rattle.wt_script.specs.declared.limits.TheConstants.{MAX_MADE};
ghost use Rattle.wt_session.specs.Said.{Replies};
ghost use Rattle.wt_session.specs.Expand.{expanded, expand_reply};

use crate::lookup::chain_named;
use crate::names::Names;
use crate::reply::{Answer, CommandFault, open_chain};
use crate::value::{Sheet, Value};
use std::alloc::{AllocError, Global};
use wt_chain::Accepted;
use wt_expand::ExpandFault;
use wt_pattern::pattern_text;
use wt_seq::Seq;
use wt_tile::TileSet;

/// The set of level 0 of a chain. That the chain is good is said by `raw`.
fn first_set(alloc: Global, chain: &Accepted) -> Result<TileSet, AllocError>
    ensures set { IfOk result (λ set. set_at chain.now.steps 0 ≡ Some set) }
    ensures good { chain_fault chain.now ≡ None }
{
    chain.raw();
    chain.set(0).copy(alloc)
}

/// The pick of a chain, bound to a name.
#[tactic(auto, using(crate::proofs::Expand::picked, crate::proofs::Expand::not_picked, crate::proofs::Expand::never_wide, crate::proofs::Expand::never_high, crate::proofs::Expand::picked_tiles))]
fn bound_pick(
    alloc: Global,
    name: &Seq<u8>,
    chain: &Accepted,
    width: usize,
    height: usize,
) -> Result<Answer, CommandFault>
    requires some_width { 1 ≤ width }
    requires few_width { width ≤ MAX_MADE }
    requires some_height { 1 ≤ height }
    requires few_height { height ≤ MAX_MADE }
    ensures { Replies (λ reply. reply ≡ expanded name.now chain.now.steps chain.now.end width height) result }
{
    match wt_expand::expand(alloc, chain, width, height) {
        Ok(pattern) => {
            let text = Seq::new(pattern_text(alloc, &pattern)?);
            let set = first_set(alloc, chain)?;
            let name = name.copy(alloc)?;
            let value = Value::Pattern(Sheet::new(pattern, Some(set)));
            Ok(Answer::Binds { name, value, text })
        }
        Err(ExpandFault::OpenChain) => Err(open_chain(alloc)),
        Err(ExpandFault::Width | ExpandFault::Height) => unreachable!(),
        Err(ExpandFault::OutOfMemory) => Err(CommandFault::OutOfMemory),
    }
}

/// `expand N C w h`: the pick of w by h cells, bound to a name.
pub fn expand(
    alloc: Global,
    names: &Names,
    name: &Seq<u8>,
    chain: &[u8],
    width: usize,
    height: usize,
) -> Result<Answer, CommandFault>
    requires some_width { 1 ≤ width }
    requires few_width { width ≤ MAX_MADE }
    requires some_height { 1 ≤ height }
    requires few_height { height ≤ MAX_MADE }
    ensures { Replies (λ reply. reply ≡ expand_reply names.now name.now chain.now width height) result }
{
    let chain = chain_named(alloc, names, chain)?;
    bound_pick(alloc, name, chain, width, height)
}
