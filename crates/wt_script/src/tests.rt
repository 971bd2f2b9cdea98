// Scripts read, and the first fault of a script that isn't one.
use crate::{Word, parse_script};
use std::test::Fail;
use wt_line::{TextFault, What};

/// Texts, each with the line of its first fault, and with the limit that is passed there where that is the fault.
const FAULTS: [(&str, usize, Option<What>); 60] = [
    ("# x", 1, None),
    (" \n", 1, None),
    (" # x\n", 1, None),
    ("valid p\n\n# y\njson p", 4, None),
    ("valid  p\n", 1, None),
    ("unknown p\n", 1, None),
    ("valid 2p\n", 1, None),
    ("valid P\n", 1, None),
    ("json a_name_of_thirty_three_bytes_0123\n", 1, None),
    ("tiles s 1\n# x\nx n x n\n", 2, None),
    ("tiles s 1\nx n x\n", 2, None),
    ("tiles s 257\n", 1, Some(What::Tiles)),
    ("tiles s 257", 1, None),
    ("pattern p s 4097 0\n", 1, None),
    ("pattern p s 4097 4097\n", 1, Some(What::Width)),
    ("pattern p s 1 4097\n", 1, Some(What::Height)),
    ("pattern p s 1 1\n65536\n", 2, Some(What::Number)),
    ("pattern p s 1 2\n0\n", 3, None),
    ("period p -0 0\n", 1, None),
    ("period p -9223372036854775808 0\n", 1, Some(What::Number)),
    ("bound c 0 9223372036854775808\n", 1, Some(What::Number)),
    (
        "dominoes s 1 5 18446744073709551616\n",
        1,
        Some(What::Radius),
    ),
    (
        "dominoes s 1 4 18446744073709551616\n",
        1,
        Some(What::Number),
    ),
    ("dominoes s 3 5 1\n", 1, None),
    ("surround s 1 65536 0 5 0\n", 1, Some(What::Number)),
    ("derive c s 1 behind 5 0 0\n", 1, None),
    ("search c s 111111111 after 1 33 9\n", 1, None),
    ("search c s 123 after 1 32 9\n", 1, None),
    ("search c s 12 after 1 0 9\n", 1, None),
    ("search c s 12 after 1 33 9\n", 1, Some(What::Steps)),
    ("check n 18446744073709551616\n", 1, Some(What::Number)),
    ("check n 18446744073709551615\n", 2, None),
    ("check n 1\nx", 2, None),
    ("expand p c 1025 0\n", 1, None),
    ("expand p c 1 1025\n", 1, Some(What::Height)),
    ("seeds c 65\n", 1, Some(What::Power)),
    ("seeds c 0\n", 1, None),
    ("census c 4097 65536\n", 1, Some(What::Turns)),
    ("desub n c 65536 p\n", 1, Some(What::Number)),
    ("draw p lines\n", 1, None),
    ("upgrade d c 1\n", 1, None),
    ("lighten d c 18446744073709551616\n", 1, Some(What::Number)),
    ("torus t 1:0 1:0:1 1:0:1 1:0:1 0\n", 1, None),
    ("torus t 1:0:1:1 1:0:1 1:0:1 1:0:1 0\n", 1, None),
    ("torus t 1:0:0 1:0:1 1:0:1 1:0:1 0\n", 1, None),
    ("torus t -0:0:1 1:0:1 1:0:1 1:0:1 0\n", 1, None),
    ("torus t 1:0:-1 1:0:1 1:0:1 1:0:1 0\n", 1, None),
    ("torus t 1:0:1 1:0:1 1:0:1 1:0:1\n", 1, None),
    (
        "torus t 1:0:1 1:0:1073741824 1:0:1 1:0:1 1025\n",
        1,
        Some(What::Golden),
    ),
    (
        "torus t 1:0:1 1:0:1 1:-1073741824:1 1:0:1 1025\n",
        1,
        Some(What::Golden),
    ),
    (
        "torus t 1:0:1 1:0:1 1:0:1 1:0:1 1025\n",
        1,
        Some(What::Regions),
    ),
    (
        "torus t 1:0:1 1:0:1 1:0:1 1:0:1 1\nregion 256 65\n",
        2,
        Some(What::Tiles),
    ),
    (
        "torus t 1:0:1 1:0:1 1:0:1 1:0:1 1\nregion 255 65\n",
        2,
        Some(What::Planes),
    ),
    (
        "torus t 1:0:1 1:0:1 1:0:1 1:0:1 1\nregion 0 1\n0 0 0 0 0 -262144\n",
        3,
        Some(What::Number),
    ),
    (
        "torus t 1:0:1 1:0:1 1:0:1 1:0:1 1\nregion 0 1\n262144 0 0 0 0 -0\n",
        3,
        None,
    ),
    (
        "torus t 1:0:1 1:0:1 1:0:1 1:0:1 2\nregion 0 0\n\nregion 0 0\n",
        3,
        None,
    ),
    ("code k t 1:0:1 1073741824:0:1 0 1\n", 1, None),
    (
        "code k t 1:0:1 1073741824:0:1 1025 1\n",
        1,
        Some(What::Golden),
    ),
    ("code k t 1:0:1 1:0:1 1025 1025\n", 1, Some(What::Width)),
    ("induce i t 3\n", 1, None),
];

#[test]
fn reads_commands_between_skipped_lines(rt: HostRuntime) -> Result<(), Fail> {
    let text = b"# a set\n\ntiles s 1\nx n x n\n#\ncheck c 2\n# kept\n\nvalid p\n\n# end\n";
    let commands = parse_script(rt.alloc(), text).ok().ok_or("read")?;
    let lines: [usize; 3] = [3, 6, 9];
    assert!(rt; commands.len() == 3);
    for (command, line) in commands.iter().zip(lines) {
        assert!(rt; command.line == line, "{line}");
    }
    let taken = commands.iter().any(|command| match &command.word {
        Word::Check { lines, .. } => lines.as_slice() == b"# kept\n\n".as_slice(),
        _ => false,
    });
    assert!(rt; taken);
    Ok(())
}

#[test]
fn reads_each_word(rt: HostRuntime) {
    let text = b"tiles s 0\npattern p s 1 1\n0\nvalid p\nperiod p -9223372036854775807 0\n\
dominoes s 1 4 18446744073709551615\nsurround s 2 65535 0 0 0\nmarkers s 2 1 9\nfuse s 1 0 1\nsame s t\n\
derive c s 1 after 0 0 9\nsearch c s 12121212 before 1 32 9\ncert c\ncheck c 0\nexpand p c 1024 1\nimage c 0\n\
desub q c 0 p\nbound c 1 0\nprimitive c\nupgrade d c\nlighten d c 18446744073709551615\nseeds c 64\ncensus c 4096 0\ndraw p boxes\njson a_name_of_thirty_two_bytes_0123\n\
torus t 1073741823:-1:2 1:0:1 2:-1:1 2:-1:1 2\nregion 255 1\n-262143 0 0 262143 -1 1\nregion 0 0\n\
code k t 1:0:10 -1:0:10 1024 1\ninduce i t 2\n";
    let commands = parse_script(rt.alloc(), text);
    assert!(rt; commands.is_ok_and(|commands| commands.len() == 27));
}

#[test]
fn reads_no_commands(rt: HostRuntime) {
    let texts: [&[u8]; 3] = [b"", b"# x\n", b"\n\n"];
    for text in texts {
        assert!(rt; parse_script(rt.alloc(), text).is_ok_and(|commands| commands.is_empty()));
    }
}

#[test]
fn names_the_first_fault(rt: HostRuntime) {
    for (text, line, what) in FAULTS {
        let want = match what {
            None => TextFault::Syntax { line },
            Some(what) => TextFault::Limit { what, line },
        };
        let read = parse_script(rt.alloc(), text.as_bytes());
        assert!(rt; read.is_err_and(|fault| fault == want), "{text}");
    }
}
