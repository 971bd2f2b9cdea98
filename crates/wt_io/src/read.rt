// Reading a source to its end.
ghost use Rattle.std.specs.Prelude.{◌+◌, ◌≤◌, IfOk, OnOk, IsErrOf, vec_len};
ghost use Rattle.std.specs.Io.KnownBytes.{Consumes, IsAtEnd};
ghost use Rattle.wt_io.specs.Causes.{Rose};
ghost use Rattle.wt_io.specs.Took.{CountsFault, TookMore, TookUpTo};

use crate::{Failed, Source};
use std::alloc::Global;
use thiserror::Error;

/// Why no input was read to its end.
#[derive(Clone, Copy, Debug, PartialEq, Eq, Error)]
pub enum ReadError {
    /// The source failed.
    #[error("read fault")]
    ReadFault,
    /// More bytes came than the limit allows.
    #[error("input too long")]
    TooLong,
    /// Out of memory.
    #[error("out of memory")]
    OutOfMemory,
}

/// n bytes are asked for in one read.
pub const PIECE: usize = 4096;

/// All bytes of a source up to the end of input, if they are no more than `limit`.
///
/// It answers `TooLong` exactly where more than `limit` bytes came, and stops at the piece that passes it. The first
/// failure of the source ends the call with `ReadFault`, and nothing else gives that answer. After a refusal the
/// bytes
/// that came are taken from the source.
pub fn read_all<S: Source>(alloc: Global, src: &mut S, limit: usize) -> Result<Vec<u8>, ReadError>
    // All bytes came, to the end, and within the limit.
    ensures bytes { IfOk result (λ all. Consumes (S.left src.old) (S.left src.new) all.items) }
    ensures end { OnOk result (IsAtEnd (S.left src.new)) }
    ensures within { IfOk result (λ all. vec_len all ≤ limit) }

    // What was taken before a refusal.
    ensures too_long { IsErrOf result ReadError.TooLong → TookMore (S.left src.old) (S.left src.new) limit }
    ensures stops { IsErrOf result ReadError.TooLong → TookUpTo (S.left src.old) (S.left src.new) (limit + PIECE) }
    ensures fault_within { IsErrOf result ReadError.ReadFault → TookUpTo (S.left src.old) (S.left src.new) limit }
    ensures memory_within { IsErrOf result ReadError.OutOfMemory → TookUpTo (S.left src.old) (S.left src.new) limit }

    // The count of faults.
    ensures read_fault { IsErrOf result ReadError.ReadFault → Rose (S.faults src.old) (S.faults src.new) }
    ensures counts { CountsFault (S.faults src.old) (S.faults src.new) result }
    ensures later { S.faults src.old ≤ S.faults src.new }
{
    let mut all = Vec::new(alloc);
    let mut piece = [0u8; PIECE];
    loop {
        match src.read(&mut piece) {
            Ok(0) => return Ok(all),
            Ok(count) => {
                if count > limit - all.len() {
                    return Err(ReadError::TooLong);
                }
                if all.extend_from_slice(&piece[..count]).is_err() {
                    return Err(ReadError::OutOfMemory);
                }
            }
            Err(Failed) => return Err(ReadError::ReadFault),
        }
    }
}
