// The commands of a script.
ghost use Rattle.std.specs.Prelude.{◌≡◌, IfOk};
ghost use Rattle.wt_program.specs.Scripts.{IsScriptReply};
ghost use Rattle.wt_program.specs.Scripts as spec;

use crate::fault::fault_reply;
use crate::reply::Reply;
use crate::status::{ANSWERED, LIMIT, SPENT};
use std::alloc::{AllocError, Global};
use wt_script::parse_script;
use wt_seq::Seq;
use wt_session::run_all;

/// A text, by the status with which a script ends.
pub fn by_status(status: u8, text: Seq<u8>) -> Reply
    ensures { result ≡ spec.by_status status text }
{
    if status == ANSWERED {
        Reply::Answered(text)
    } else if status == LIMIT {
        Reply::Limit(text)
    } else if status == SPENT {
        Reply::Spent(text)
    } else {
        Reply::Refused(text)
    }
}

/// The reply of `run` to the bytes of a script: the answers of its commands, cut at the first that is refused, with
/// the line of that one behind them; or the first fault of the text alone.
pub fn run_reply(alloc: Global, bytes: &[u8]) -> Result<Reply, AllocError>
    ensures { IfOk result (IsScriptReply bytes.now) }
{
    match parse_script(alloc, bytes) {
        Ok(commands) => {
            let (status, text) = run_all(alloc, &commands)?;
            Ok(by_status(status, text))
        }
        Err(fault) => fault_reply(alloc, fault),
    }
}
