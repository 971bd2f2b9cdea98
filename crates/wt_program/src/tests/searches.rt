// What a search finds, through its certificate.
use crate::u::u;
use std::alloc::Global;
use std::test::Fail;
use wt_cert::{read_cert, write_cert};
use wt_chain::{Accepted, End};
use wt_check::{check, report};
use wt_search::search;
use wt_tile::{Axis, SetRef, Side};

/// The tiles of the first set to which those of the last are renamed.
const RENAMING: [u16; 19] = [
    1, 0, 3, 7, 6, 2, 5, 4, 11, 8, 10, 9, 15, 17, 14, 18, 13, 12, 16,
];

/// The chain of U, where it is found.
fn found(alloc: Global) -> Option<Accepted> {
    let list = u(alloc).ok()?;
    let set = SetRef::new(&list).ok()?;
    let axes = [Axis::One, Axis::Two];
    search(alloc, set, &axes, Side::After, 1, 8, 1_000_000_000_000).ok()
}

#[test]
fn reads_back_what_it_finds(rt: HostRuntime) -> Result<(), Fail> {
    let alloc = rt.alloc();
    let chain = found(alloc).ok_or("search")?;
    let text = write_cert(alloc, chain.raw())?;
    let read = read_cert(alloc, &text).ok().ok_or("read")?;
    let accepted = check(read).ok().ok_or("check")?;
    let End::Loop {
        start: 0,
        renaming,
        expansion: 2,
    } = accepted.end()
    else {
        return Err("loop".into());
    };
    assert_eq!(rt; renaming.as_slice(), RENAMING.as_slice());
    let told = report(alloc, &accepted)?;
    assert_eq!(rt;
        told.as_slice(),
        b"accepted looped\nsets 19 21 19\nloop 0 2\n".as_slice()
    );
    Ok(())
}
