// Certificates read, written back, with one line changed, and cut.
mod examples;

use crate::tests::examples::{S2, S3, S4, S5, S6, S7};
use crate::{read_cert, write_cert};
use std::alloc::{AllocError, Global};
use std::test::Fail;
use wt_line::{TextFault, What};

/// The lines of a certificate of one marker step.
const STEP: [&str; 33] = [
    "certificate 1",
    "steps 1",
    "step 0 axis 1 side after radius 0",
    "fine 3",
    "y n y n",
    "y n x n",
    "x m y m",
    "coarse 4",
    "y n y n",
    "y n x n",
    "x p y p",
    "x p x p",
    "markers 1 2",
    "allowed 1 5",
    "0 0",
    "0 2",
    "1 0",
    "1 2",
    "2 1",
    "allowed 2 5",
    "0 0",
    "0 1",
    "1 0",
    "1 1",
    "2 2",
    "refuted 0",
    "images 4",
    "0",
    "1",
    "0 2",
    "1 2",
    "open",
    "end",
];

/// The first lines of the certificate, with this line in place of that of its number.
fn with_line(
    alloc: Global,
    count: usize,
    number: usize,
    line: &str,
) -> Result<Vec<u8>, AllocError> {
    let mut text = Vec::new(alloc);
    for (i, old) in STEP.iter().enumerate() {
        if i < count {
            let line = if i + 1 == number { line } else { *old };
            text.extend_from_slice(line.as_bytes())?;
            text.push(b'\n')?;
        }
    }
    Ok(text)
}

#[test]
fn reads_a_step(rt: HostRuntime) -> Result<(), Fail> {
    let text = with_line(rt.alloc(), 33, 0, "")?;
    let read = read_cert(rt.alloc(), &text);
    assert!(rt; read.is_ok_and(|chain| chain.steps.as_slice().len() == 1));
    Ok(())
}

#[test]
fn writes_what_it_read(rt: HostRuntime) -> Result<(), Fail> {
    let alloc = rt.alloc();
    let first = with_line(alloc, 33, 0, "")?;
    let texts: [&[u8]; 7] = [
        &first,
        S2.as_bytes(),
        S3.as_bytes(),
        S4.as_bytes(),
        S5.as_bytes(),
        S6.as_bytes(),
        S7.as_bytes(),
    ];
    for (i, text) in texts.iter().enumerate() {
        let chain = read_cert(alloc, *text).ok().ok_or("read")?;
        let written = write_cert(alloc, &chain)?;
        assert!(rt; written.as_slice() == *text, "{i}");
    }
    Ok(())
}

/// The certificate with a refutation whose tree has n levels.
fn with_tree(alloc: Global, levels: usize) -> Result<Vec<u8>, AllocError> {
    let mut lines = String::new(alloc);
    lines.push_str("refuted 1\n1 0 1")?;
    for _ in 1..levels {
        lines.push_str(" 4 1 0")?;
    }
    lines.push_str(" 7 0")?;
    with_line(alloc, 33, 26, &lines)
}

#[test]
fn reads_trees_of_90_levels(rt: HostRuntime) -> Result<(), Fail> {
    let text = with_tree(rt.alloc(), 90)?;
    assert!(rt; read_cert(rt.alloc(), &text).is_ok());
    let text = with_tree(rt.alloc(), 91)?;
    let what = What::Depth;
    let want = TextFault::Limit { what, line: 27 };
    assert!(rt; read_cert(rt.alloc(), &text).is_err_and(|fault| fault == want));
    Ok(())
}

#[test]
fn names_the_first_fault(rt: HostRuntime) -> Result<(), Fail> {
    let rows = [
        (1, "certificate 3", None),
        (1, "certificate 01", None),
        (2, "steps 0", None),
        (2, "steps 33", Some(What::Steps)),
        (2, "steps 33 ", None),
        (2, "steps 1180591620717411303424", Some(What::Steps)),
        (3, "step 0 axis 1 side after radius 5", Some(What::Radius)),
        (3, "step 1 axis 1 side after radius 0", None),
        (3, "step 0 restrict radius 0", None),
        (4, "fine 257", Some(What::Tiles)),
        (4, "fine  3", None),
        (4, "fine 1180591620717411303424", Some(What::Tiles)),
        (7, "x m y m\r", None),
        (7, "x m y", None),
        (13, "markers 2 2", None),
        (13, "markers 1 70000", Some(What::Number)),
        (13, "markers 257 1", None),
        (13, "markers 0 ", None),
        (14, "allowed 1 65537", Some(What::Pairs)),
        (14, "allowed 1 1180591620717411303424", Some(What::Pairs)),
        (15, "0 00", None),
        (
            15,
            "0 9999999999999999999999999999999999999999",
            Some(What::Number),
        ),
        (15, "65536 x", None),
        (26, "refuted 131073", Some(What::Pairs)),
        (27, "images 257", Some(What::Tiles)),
        (28, "", None),
        (32, "loop 0 257", Some(What::Expansion)),
        (32, "loop 65536 257", Some(What::Number)),
        (32, "loop 0", None),
        (32, "open 0", None),
        (33, "end ", None),
    ];
    for (number, line, what) in rows {
        let text = with_line(rt.alloc(), 33, number, line)?;
        let want = match what {
            None => TextFault::Syntax { line: number },
            Some(what) => TextFault::Limit { what, line: number },
        };
        let read = read_cert(rt.alloc(), &text);
        assert!(rt; read.is_err_and(|fault| fault == want), "{line}");
    }
    Ok(())
}

#[test]
fn names_the_first_fault_of_a_loop(rt: HostRuntime) -> Result<(), Fail> {
    let rows = [
        (32, "loops 0 1", None),
        (32, "loop 00 1", None),
        (32, "loop 0 01", None),
        (32, "loop 0 1 1", None),
        (33, "loop 0 1\nrename 2 0 1", None),
        (33, "loop 0 1\nrenaming 02 0 1", None),
        (33, "loop 0 1\nrenaming 2 0 01", None),
        (33, "loop 0 1\nrenaming 2 0", None),
        (33, "loop 0 1\nrenaming 2 0 1 2", None),
        (33, "loop 0 1\nrenaming 2 0 65536", Some(What::Number)),
        (33, "loop 0 1\nrenaming 1180591620717411303424 0", None),
    ];
    for (number, line, what) in rows {
        let text = with_line(rt.alloc(), 33, 32, line)?;
        let want = match what {
            None => TextFault::Syntax { line: number },
            Some(what) => TextFault::Limit { what, line: number },
        };
        let read = read_cert(rt.alloc(), &text);
        assert!(rt; read.is_err_and(|fault| fault == want), "{line}");
    }
    Ok(())
}

#[test]
fn misses_the_next_line(rt: HostRuntime) -> Result<(), Fail> {
    for count in 0..33 {
        let text = with_line(rt.alloc(), count, 0, "")?;
        let read = read_cert(rt.alloc(), &text);
        let want = TextFault::Syntax { line: count + 1 };
        assert!(rt; read.is_err_and(|fault| fault == want), "{count}");
    }
    Ok(())
}

/// Whether the front of a text up to a byte misses a line of this number.
fn is_missed(alloc: Global, text: &[u8], end: usize, line: usize) -> Option<bool> {
    let read = read_cert(alloc, text.get(..end)?);
    Some(read.is_err_and(|fault| fault == TextFault::Syntax { line }))
}

#[test]
fn misses_the_next_line_of_each(rt: HostRuntime) -> Result<(), Fail> {
    for text in [S2, S3, S4, S5, S6, S7] {
        let text = text.as_bytes();
        let mut line = 1usize;
        for (i, byte) in text.iter().enumerate() {
            let end = i.saturating_add(1);
            if *byte == b'\n' && end < text.len() {
                line = line.saturating_add(1);
                assert_eq!(rt;
                    is_missed(rt.alloc(), text, end, line),
                    Some(true),
                    "{line}"
                );
            }
        }
    }
    Ok(())
}
