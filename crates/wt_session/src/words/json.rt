// The word `json`.
ghost use Rattle.std.specs.Prelude.{◌≡◌};
ghost use Rattle.wt_session.specs.Said.{Replies};
ghost use Rattle.wt_session.specs.Json.{json_reply};

use crate::json::value_bytes;
use crate::lookup::value_named;
use crate::names::Names;
use crate::reply::{Answer, CommandFault};
use std::alloc::Global;
use wt_seq::Seq;

/// `json M`: any value as one line of JSON.
pub fn json(alloc: Global, names: &Names, name: &[u8]) -> Result<Answer, CommandFault>
    ensures { Replies (λ reply. reply ≡ json_reply names.now name.now) result }
{
    let value = value_named(alloc, names, name)?;
    let mut text = value_bytes(alloc, value)?;
    text.push(b'\n')?;
    Ok(Answer::Says(Seq::new(text)))
}
