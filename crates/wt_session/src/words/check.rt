// The word `check`.
ghost use Rattle.std.specs.Prelude.{◌≡◌};
ghost use Rattle.wt_chain.specs.Faults.{chain_fault};
ghost use Rattle.wt_session.specs.Said.{Replies};
ghost use Rattle.wt_session.specs.Check.{judged, check_reply};

use crate::limits::MAX_INPUT;
use crate::reply::{Answer, CommandFault, limit, limit_line, refused, refused_line};
use crate::texts::{past_line, syntax_line};
use crate::value::Value;
use std::alloc::Global;
use wt_cert::read_cert;
use wt_chain::RawChain;
use wt_line::TextFault;
use wt_seq::Seq;

fn judge(alloc: Global, name: &Seq<u8>, chain: RawChain) -> Result<Answer, CommandFault>
    ensures { Replies (λ reply. reply ≡ judged name.now chain (chain_fault chain)) result }
{
    match wt_check::check(chain) {
        Ok(chain) => {
            let text = Seq::new(wt_check::report(alloc, &chain)?);
            Ok(Answer::Binds {
                name: name.copy(alloc)?,
                value: Value::Chain(chain),
                text,
            })
        }
        Err((_, refusal)) => Err(refused(alloc, &wt_check::refusal_text(alloc, &refusal)?)),
    }
}

/// `check N n`: the report of the chain that the lines are, bound to a name; or what is wrong with it.
pub fn check(alloc: Global, name: &Seq<u8>, bytes: &[u8]) -> Result<Answer, CommandFault>
    ensures { Replies (λ reply. reply ≡ check_reply name.now bytes.now) result }
{
    if bytes.len() > MAX_INPUT {
        return Err(limit(alloc, b"limit input\n"));
    }
    match read_cert(alloc, bytes) {
        Ok(chain) => judge(alloc, name, chain),
        Err(TextFault::Syntax { line }) => Err(refused_line(syntax_line(alloc, line)?)),
        Err(TextFault::Limit { what, line }) => Err(limit_line(past_line(alloc, what, line)?)),
        Err(TextFault::OutOfMemory) => Err(CommandFault::OutOfMemory),
    }
}
