// Writing all of some bytes.
ghost use Rattle.std.specs.Prelude.{◌≡◌, ◌≤◌, ℕ, take, OnOk, OnErr};
ghost use Rattle.std.specs.Io.KnownBytes.{Appends};
ghost use Rattle.wt_io.specs.Causes.{Rose};

use crate::{Failed, Sink};
use thiserror::Error;

/// A sink failed before all bytes were written.
#[derive(Clone, Copy, Debug, PartialEq, Eq, Error)]
#[error("write fault")]
pub struct WriteFault;

/// Writes all of the bytes.
///
/// The first failure of the sink ends the call, and nothing else gives a fault. After it the sink has a prefix of the
/// bytes more than before.
pub fn write_all<K: Sink>(sink: &mut K, bytes: &[u8]) -> Result<(), WriteFault>
    ensures ok { OnOk result (Appends (K.held sink.old) (K.held sink.new) bytes.now) }
    ensures prefix { OnErr result ((n : ℕ) × Appends (K.held sink.old) (K.held sink.new) (take n bytes.now)) }
    ensures fault { OnErr result (Rose (K.faults sink.old) (K.faults sink.new)) }
    ensures kept { OnOk result (K.faults sink.new ≡ K.faults sink.old) }
    ensures later { K.faults sink.old ≤ K.faults sink.new }
{
    let mut at = 0usize;
    while at < bytes.len() {
        match sink.write(&bytes[at..]) {
            Ok(count) => at += count,
            Err(Failed) => return Err(WriteFault),
        }
    }
    Ok(())
}
