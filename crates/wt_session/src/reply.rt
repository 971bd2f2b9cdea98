// What a command comes to.
ghost use Rattle.std.specs.Prelude.{◌≡◌, IfOk, codes, string_bytes};
ghost use Rattle.wt_session.specs.declared.reply.CommandFault.TheVariants.{OutOfMemory};
ghost use Rattle.wt_session.specs.Said.{IsRefusal};
ghost use Rattle.wt_session.specs.Replies.{no_tile_text};

use crate::value::Value;
use std::alloc::{AllocError, AllocFailed, Global};
use wt_seq::Seq;

/// The answer of a command that isn't refused.
#[derive(Drop)]
pub enum Answer {
    /// A text.
    Says(Seq<u8>),
    /// A text, and a value that a name is bound to.
    Binds {
        /// The name.
        name: Seq<u8>,
        /// What it is bound to.
        value: Value,
        /// The text.
        text: Seq<u8>,
    },
}

/// Why a command is refused.
#[derive(Drop)]
pub enum CommandFault {
    /// The refusal's status and its line: 1 for `refused`, 5 for `limit`, 6 for `spent`.
    Refused {
        /// 1, 5 or 6.
        status: u8,
        /// The line with its newline, without the number of the command's line.
        text: Seq<u8>,
    },
    /// Out of memory.
    OutOfMemory,
}

impl From<AllocError> for CommandFault {
    ghost from_gives = { λ _ e. e ≡ OutOfMemory };

    fn from(_: AllocError) -> Self {
        CommandFault::OutOfMemory
    }
}

impl<T: Drop> From<AllocFailed<T>> for CommandFault {
    ghost from_gives = { λ _ e. e ≡ OutOfMemory };

    fn from(_: AllocFailed<T>) -> Self {
        CommandFault::OutOfMemory
    }
}

fn stopped(alloc: Global, status: u8, line: &[u8]) -> CommandFault
    ensures { IsRefusal status line.now result }
{
    match line.to_vec(alloc) {
        Ok(text) => CommandFault::Refused {
            status,
            text: Seq::new(text),
        },
        Err(AllocError) => CommandFault::OutOfMemory,
    }
}

/// A line that begins with `refused`.
pub fn refused(alloc: Global, line: &[u8]) -> CommandFault
    ensures { IsRefusal 1 line.now result }
{
    stopped(alloc, 1, line)
}

/// A line that begins with `limit`.
pub fn limit(alloc: Global, line: &[u8]) -> CommandFault
    ensures { IsRefusal 5 line.now result }
{
    stopped(alloc, 5, line)
}

/// A line that begins with `spent`.
pub fn spent(alloc: Global, line: &[u8]) -> CommandFault
    ensures { IsRefusal 6 line.now result }
{
    stopped(alloc, 6, line)
}

/// A line that begins with `refused`, of its own.
pub fn refused_line(line: String) -> CommandFault
    ensures { result ≡ CommandFault.Refused 1 (string_bytes line) }
{
    CommandFault::Refused {
        status: 1,
        text: Seq::new(line.into_bytes()),
    }
}

/// A line that begins with `limit`, of its own.
pub fn limit_line(line: String) -> CommandFault
    ensures { result ≡ CommandFault.Refused 5 (string_bytes line) }
{
    CommandFault::Refused {
        status: 5,
        text: Seq::new(line.into_bytes()),
    }
}

/// A line that begins with `spent`, of its own.
pub fn spent_line(line: String) -> CommandFault
    ensures { result ≡ CommandFault.Refused 6 (string_bytes line) }
{
    CommandFault::Refused {
        status: 6,
        text: Seq::new(line.into_bytes()),
    }
}

fn tile_line(alloc: Global, tile: u16) -> Result<String, AllocError>
    ensures { IfOk result (λ text. string_bytes text ≡ no_tile_text tile) }
{
    format!(in alloc; "refused tile {tile}\n")
}

/// A number that is no tile of a set.
pub fn no_tile(alloc: Global, tile: u16) -> CommandFault
    ensures { IsRefusal 1 (no_tile_text tile) result }
{
    match tile_line(alloc, tile) {
        Ok(line) => refused_line(line),
        Err(AllocError) => CommandFault::OutOfMemory,
    }
}

/// A chain without a loop, where one is asked for.
pub fn open_chain(alloc: Global) -> CommandFault
    ensures { IsRefusal 1 (codes "refused open chain\n") result }
{
    refused(alloc, b"refused open chain\n")
}
