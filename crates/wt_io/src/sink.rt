// Sinks of bytes.
ghost use Rattle.std.specs.Prelude.{◌≡◌, List, ℕ, Some, None};
ghost use Rattle.std.specs.declared.option.Option.{Option};
ghost use Rattle.std.specs.Io.{WritesAtMost};
ghost use Rattle.std.specs.Io.KnownBytes.{WriteAppends};
ghost use Rattle.wt_io.specs.Causes.{HasCause, Progresses, count_after};

use crate::Failed;
use std::io::Write;

/// Something that bytes go into.
///
/// It has two meanings: `held`, the bytes that were written so far, where it tells them, and `faults`, the count of
/// its failures, which never falls and stays at the last value of a `u64`.
pub trait Sink {
    /// The bytes that were written so far, where the sink tells them.
    ghost held: { Self → Option (List ℕ) };

    /// How often it has failed.
    ghost faults: { Self → ℕ };

    /// Appends the first bytes of a piece, and says how many: at least one, where the piece has any.
    ///
    /// A failure appends nothing, and comes only where the count of faults rose; without one the count stays as
    /// it was.
    fn write(&mut self, buf: &[u8]) -> Result<usize, Failed>
        ensures bound { WritesAtMost result buf.now }
        ensures moves { Progresses result buf.now }
        ensures bytes { WriteAppends (held self.old) (held self.new) result buf.now }
        ensures cause { HasCause (faults self.old) (faults self.new) result };
}

/// Takes everything and keeps nothing. It tells no bytes and never fails.
#[derive(Clone, Copy, Debug)]
pub struct NullSink;

impl Sink for NullSink {
    ghost use Rattle.std.specs.Prelude.{length, Ok};

    ghost held = { λ s. None };

    ghost faults = { λ s. 0 };

    fn write(&mut self, buf: &[u8]) -> Result<usize, Failed>
        ensures bound { WritesAtMost result buf.now }
        ensures moves { Progresses result buf.now }
        ensures bytes { WriteAppends None None result buf.now }
        ensures cause { HasCause 0 0 result }
        ensures all { result ≡ Ok (length buf.now) }
    {
        Ok(buf.len())
    }
}

/// Any writer of std, such as the standard output. It tells no bytes. It counts each error of the writer, and each
/// write of a piece of which the writer took nothing.
///
/// Where the bytes go is the trusted edge.
#[derive(Drop)]
pub struct StdSink<W: Write> {
    inner: W,
    faults: u64,
}

impl<W: Write> StdSink<W> {
    /// A sink over a writer, with no fault so far.
    pub fn new(inner: W) -> Self
        ensures { result.faults ≡ 0 }
    {
        StdSink { inner, faults: 0 }
    }
}

impl<W: Write> Sink for StdSink<W> {
    ghost held = { λ s. None };

    ghost faults = { λ s. s.faults };

    fn write(&mut self, buf: &[u8]) -> Result<usize, Failed>
        ensures bound { WritesAtMost result buf.now }
        ensures moves { Progresses result buf.now }
        ensures bytes { WriteAppends None None result buf.now }
        ensures cause { HasCause self.old.faults self.new.faults result }
        ensures counted { self.new.faults ≡ count_after self.old.faults result }
    {
        match self.inner.write(buf) {
            Ok(count) if count > 0 || buf.is_empty() => Ok(count),
            _ => {
                self.faults = self.faults.saturating_add(1);
                Err(Failed)
            }
        }
    }
}
