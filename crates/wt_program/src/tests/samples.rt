// The sample, which is made without an input.
use crate::tests::words_of;
use crate::top::wang;
use std::test::Fail;
use wt_io::{MemSink, MemSource};

/// The sample of 5 by 5 cells.
const FIVE: &str =
    "sample 5\nloop 0 2\nvalid\nperiods 0 of 24\ncoarse 1 3\ncounts 0 4 1 0 1 1 1 2 1 4 1 0 0 4 2 1 1 0 1\n";

/// The words are answered so over a source whose first call fails: so it isn't called.
#[test]
fn samples_without_an_input(rt: HostRuntime) -> Result<(), Fail> {
    let alloc = rt.alloc();
    for (line, status, text) in [("sample 5", 0, FIVE), ("sample 4097", 2, "usage\n")] {
        let words = words_of(alloc, line)?;
        let mut src = MemSource::new(b"x".to_vec(alloc)?, 1, [0].to_vec(alloc)?);
        let mut sink = MemSink::new(alloc, 200, 7, Vec::new(alloc))?;
        assert_eq!(rt; wang(alloc, &words, &mut src, &mut sink), status, "{line}");
        assert_eq!(rt; sink.held(), text.as_bytes(), "{line}");
    }
    Ok(())
}
