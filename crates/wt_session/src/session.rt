// A session: the commands of a script, one after the other.
ghost use Rattle.std.specs.Prelude.{◌≡◌, ◌++◌, ◌<◌, ◌+◌, ◌≤◌, ◌^◌, [], length, IfErr, OnOk, OnErr, vec_len};
ghost use Rattle.wt_script.specs.Fits.{Fits};
ghost use Rattle.wt_session.specs.Names.{bind};
ghost use Rattle.wt_session.specs.Meaning.{IsMeaning, goes_on, within_text, settled};
ghost use Rattle.wt_session.specs.Replies.{says, binds};
ghost use Rattle.wt_session.specs.Ends.{Ends, EndsWith, Stays};

use crate::answers::answer;
use crate::limits::MAX_TEXT;
use crate::names::Names;
use crate::reply::{Answer, CommandFault, limit};
use crate::value::Value;
use std::alloc::{AllocError, Global};
use std::marker::Model;
use wt_script::Command;
use wt_seq::Seq;

/// What the names of a script are bound to so far. Seen by contracts as the finite map of the names.
#[derive(Drop)]
pub struct Session {
    names: Names,
    alloc: Global,
}

impl Model for Session {
    ghost use Rattle.std.specs.Prelude.{List, ℕ};
    ghost use Rattle.wt_session.specs.declared.value.Value.{Value as Bound};
    ghost use Rattle.std.specs.Coded.{codes};
    ghost use Rattle.wt_refute.specs.contracts.tree.Tree as tree;

    ghost Value = { List (List ℕ × Bound) };

    ghost coded = { Prim.hlevel (codes, tree.the_row.coded) };

    ghost view = { λ s. s.names };
}

impl Session {
    /// A session without names. Takes no memory.
    pub fn new(alloc: Global) -> Session
        ensures { result ≡ [] }
    {
        Session {
            names: Names::new(alloc),
            alloc,
        }
    }

    /// Appends an answer, where it is within the limit of the text.
    #[tactic(auto, using(crate::proofs::Outcomes::past_text, crate::proofs::Outcomes::said_text, crate::proofs::Outcomes::no_memory))]
    fn say(&self, text: &[u8], out: &mut Vec<u8>) -> Result<(), CommandFault>
        ensures ends { EndsWith (within_text (length out.old.items) self.now text.now) self.now out.old.items self.now out.new.items result }
    {
        if out.len() > MAX_TEXT || text.len() > MAX_TEXT - out.len() {
            return Err(limit(self.alloc, b"limit output\n"));
        }
        out.extend_from_slice(text)?;
        Ok(())
    }

    /// Appends an answer and binds a name, where both are within their limits.
    fn say_and_bind(
        &mut self,
        name: Seq<u8>,
        value: Value,
        text: &[u8],
        out: &mut Vec<u8>,
    ) -> Result<(), CommandFault>
        ensures ends { EndsWith (settled self.old (length out.old.items) (binds name value text.now)) self.old out.old.items self.new out.new.items result }
    {
        if self.names.is_crowded(name.as_slice()) {
            return Err(limit(self.alloc, b"limit names\n"));
        }
        let before = out.len();
        self.say(text, out)?;
        match self.names.put(name, value) {
            Ok(()) => Ok(()),
            Err(AllocError) => {
                out.truncate(before);
                Err(CommandFault::OutOfMemory)
            }
        }
    }

    /// Runs one command: its answer is appended, and a name that it binds has its new value from now on.
    /// A command that is refused leaves the session and the text as they were.
    #[tactic(auto, using(crate::proofs::Outcomes::meant, crate::proofs::Outcomes::stopped))]
    pub fn run(&mut self, command: &Command, out: &mut Vec<u8>) -> Result<(), CommandFault>
        requires { Fits command.now.word }
        ensures ends { Ends (IsMeaning self.old (length out.old.items) command.now.word) self.old out.old.items self.new out.new.items result }
    {
        match answer(self.alloc, &self.names, &command.word)? {
            Answer::Says(text) => self.say(text.as_slice(), out),
            Answer::Binds { name, value, text } => self.say_and_bind(
                name,
                value,
                text.as_slice(),
                out,
            ),
        }
    }
}
