// Sources of bytes.
ghost use Rattle.std.specs.Prelude.{◌≡◌, List, ℕ, length, Some, None};
ghost use Rattle.std.specs.declared.option.Option.{Option};
ghost use Rattle.std.specs.Io.{ReadsAtMost};
ghost use Rattle.std.specs.Io.KnownBytes.{ReadConsumes};
ghost use Rattle.wt_io.specs.Causes.{HasCause, count_after};

use crate::Failed;
use std::io::Read;

/// Something that bytes come out of.
///
/// It has two meanings: `left`, the bytes that are still to come, where it tells them, and `faults`,
/// the count of its failures, which never falls and stays at the last value of a `u64`.
pub trait Source {
    /// The bytes that are still to come, where the source tells them.
    ghost left: { Self → Option (List ℕ) };

    /// How often it has failed.
    ghost faults: { Self → ℕ };

    /// Moves the next bytes to the front of a buffer, and says how many.
    ///
    /// 0 into a buffer that has room means that no byte is left. A failure moves nothing, and comes only where the
    /// count of faults rose; without one the count stays as it was.
    fn read(&mut self, buf: &mut [u8]) -> Result<usize, Failed>
        ensures bound { ReadsAtMost result buf.new }
        ensures bytes { ReadConsumes (left self.old) (left self.new) result buf.new }
        ensures cause { HasCause (faults self.old) (faults self.new) result };
}

/// Any reader of std, such as the standard input. It tells no bytes, and counts each error of the reader.
///
/// What the reader gives is the trusted edge: nothing is known of it but its length.
#[derive(Drop)]
pub struct StdSource<R: Read> {
    inner: R,
    faults: u64,
}

impl<R: Read> StdSource<R> {
    /// A source over a reader, with no fault so far.
    pub fn new(inner: R) -> Self
        ensures { result.faults ≡ 0 }
    {
        StdSource { inner, faults: 0 }
    }
}

impl<R: Read> Source for StdSource<R> {
    ghost left = { λ s. None };

    ghost faults = { λ s. s.faults };

    fn read(&mut self, buf: &mut [u8]) -> Result<usize, Failed>
        ensures bound { ReadsAtMost result buf.new }
        ensures bytes { ReadConsumes None None result buf.new }
        ensures cause { HasCause self.old.faults self.new.faults result }
        ensures counted { self.new.faults ≡ count_after self.old.faults result }
    {
        match self.inner.read(buf) {
            Ok(count) => Ok(count),
            Err(_) => {
                self.faults = self.faults.saturating_add(1);
                Err(Failed)
            }
        }
    }
}
