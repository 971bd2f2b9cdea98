// What no clause says: each call answers, and devices that fail at each place.
use crate::{
    Lines, MemSink, MemSource, NullSink, NumberFault, PlainSource, ReadError, Tokens, number,
    read_all, write_all,
};
use std::test::Fail;

#[test]
fn reads_from_failing_sources(rt: HostRuntime) -> Result<(), Fail> {
    // The bytes of a piece, the call that fails, and whether all is read before it.
    let rows = [
        (1usize, 0u64, false),
        (1, 5, false),
        (1, 8, false),
        (1, 9, true),
        (3, 1, false),
        (3, 3, false),
        (3, 4, true),
        (9, 0, false),
        (9, 1, false),
        (9, 2, true),
    ];
    for (piece, fail, is_read) in rows {
        let bytes = b"accepted".to_vec(rt.alloc())?;
        let fails = [fail].to_vec(rt.alloc())?;
        let mut src = MemSource::new(bytes, piece.max(1), fails);
        let read = read_all(rt.alloc(), &mut src, 8);
        assert_eq!(rt; read.is_ok(), is_read, "piece {piece}, call {fail}");
    }
    Ok(())
}

#[test]
fn writes_to_failing_sinks(rt: HostRuntime) -> Result<(), Fail> {
    // The room, the bytes of a piece, the call that fails, and how many bytes are written before it.
    let rows = [
        (8usize, 1usize, 0u64, 0usize),
        (8, 1, 3, 3),
        (8, 1, 7, 7),
        (8, 1, 8, 8),
        (8, 3, 1, 3),
        (8, 3, 2, 6),
        (8, 3, 3, 8),
        (8, 9, 0, 0),
        (8, 9, 1, 8),
        (0, 3, 9, 0),
        (7, 3, 9, 7),
    ];
    for (room, piece, fail, held) in rows {
        let fails = [fail].to_vec(rt.alloc())?;
        let mut sink = MemSink::new(rt.alloc(), room, piece.max(1), fails)?;
        let is_written = write_all(&mut sink, b"accepted").is_ok();
        assert_eq!(rt; sink.held(), &b"accepted"[..held.min(8)]);
        assert_eq!(rt;
            is_written,
            held == 8,
            "room {room}, piece {piece}, call {fail}"
        );
    }
    Ok(())
}

#[test]
fn reads_up_to_its_limit(rt: HostRuntime) -> Result<(), Fail> {
    let mut short = PlainSource::new(b"open".to_vec(rt.alloc())?);
    let read = read_all(rt.alloc(), &mut short, 4)?;
    assert_eq!(rt; read.as_slice(), b"open".as_slice());
    let mut long = PlainSource::new(b"open\n".to_vec(rt.alloc())?);
    assert_eq!(rt;
        read_all(rt.alloc(), &mut long, 4).err(),
        Some(ReadError::TooLong)
    );
    Ok(())
}

#[test]
fn nothing_is_written_in_full(rt: HostRuntime) {
    assert_eq!(rt; write_all(&mut NullSink, b"open"), Ok(()));
}

#[test]
fn lines_count_from_one(rt: HostRuntime) {
    let mut lines = Lines::new(b"a\n\nb");
    let _ = lines.next();
    let _ = lines.next();
    let last = lines.next();
    assert!(rt;
        last.is_some_and(|line| line.number == 3 && line.text == b"b".as_slice() && !line.ended)
    );
}

#[test]
fn a_doubled_space_gives_an_empty_token(rt: HostRuntime) {
    let mut tokens = Tokens::new(b"a  b");
    let _ = tokens.next();
    let second = tokens.next();
    assert!(rt; second.is_some_and(|token| token.start == 2 && token.end == 2));
}

#[test]
fn numbers_end_at_64_bits(rt: HostRuntime) {
    let rows = [
        (b"0".as_slice(), Ok(0)),
        (b"18446744073709551615".as_slice(), Ok(u64::MAX)),
        (
            b"18446744073709551616".as_slice(),
            Err(NumberFault::TooLarge),
        ),
        (b"00".as_slice(), Err(NumberFault::NotNumber)),
        (b"-1".as_slice(), Err(NumberFault::NotNumber)),
        (b"".as_slice(), Err(NumberFault::NotNumber)),
    ];
    for (token, value) in rows {
        assert_eq!(rt; number(token), value);
    }
}
