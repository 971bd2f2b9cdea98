// The word `cert`.
ghost use Rattle.std.specs.Prelude.{◌≡◌};
ghost use Rattle.wt_session.specs.Said.{Replies};
ghost use Rattle.wt_session.specs.Cert.{cert_reply};

use crate::lookup::chain_named;
use crate::names::Names;
use crate::reply::{Answer, CommandFault};
use std::alloc::Global;
use wt_cert::write_cert;
use wt_seq::Seq;

/// `cert C`: the certificate of a chain.
pub fn cert(alloc: Global, names: &Names, name: &[u8]) -> Result<Answer, CommandFault>
    ensures { Replies (λ reply. reply ≡ cert_reply names.now name.now) result }
{
    let chain = chain_named(alloc, names, name)?;
    Ok(Answer::Says(Seq::new(write_cert(alloc, chain.raw())?)))
}
