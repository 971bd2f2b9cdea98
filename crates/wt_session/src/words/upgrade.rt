//! The word `upgrade`.
ghost use Rattle.std.specs.Prelude.{◌≡◌};
ghost use Rattle.wt_session.specs.Said.{Replies};
ghost use Rattle.wt_session.specs.Upgrade.{upgrade_reply};

use crate::lookup::chain_named;
use crate::names::Names;
use crate::reply::{Answer, CommandFault};
use crate::value::Value;
use std::alloc::Global;
use wt_seq::Seq;

/// `upgrade N C`: the same chain in version two, bound to a name.
pub fn upgrade(
    alloc: Global,
    names: &Names,
    name: &Seq<u8>,
    chain: &[u8],
) -> Result<Answer, CommandFault>
    ensures { Replies (λ reply. reply ≡ upgrade_reply names.now name.now chain.now) result }
{
    let chain = chain_named(alloc, names, chain)?.copy(alloc)?;
    let text = Seq::new(b"version 2\n".to_vec(alloc)?);
    Ok(Answer::Binds {
        name: name.copy(alloc)?,
        value: Value::Chain(wt_chain::upgrade(chain)),
        text,
    })
}
