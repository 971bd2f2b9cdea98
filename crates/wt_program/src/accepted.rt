// The chain of a certificate, read and checked once for all words.
ghost use Rattle.std.specs.Prelude.{◌≡◌, IfOk};
ghost use Rattle.wt_program.specs.Checks as spec;

use crate::fault::fault_reply;
use crate::reply::Reply;
use std::alloc::{AllocError, Global};
use wt_cert::read_cert;
use wt_chain::{Accepted, RawChain};
use wt_check::{check, refusal_text};
use wt_seq::Seq;

/// A good chain, or the reply that names the first failing condition.
pub fn judged(alloc: Global, chain: RawChain) -> Result<Result<Accepted, Reply>, AllocError>
    ensures { IfOk result (λ judged. judged ≡ spec.judged chain) }
{
    match check(chain) {
        Ok(chain) => Ok(Ok(chain)),
        Err((_, refusal)) => Ok(Err(Reply::Refused(Seq::new(refusal_text(alloc, &refusal)?)))),
    }
}

/// The good chain that the bytes of a certificate say, or the reply that refuses them: it names the first
/// fault of the text, or else the chain's first failing condition.
pub fn accepted(alloc: Global, bytes: &[u8]) -> Result<Result<Accepted, Reply>, AllocError>
    ensures { IfOk result (λ accepted. accepted ≡ spec.accepted bytes.now) }
{
    match read_cert(alloc, bytes) {
        Ok(chain) => judged(alloc, chain),
        Err(fault) => Ok(Err(fault_reply(alloc, fault)?)),
    }
}
