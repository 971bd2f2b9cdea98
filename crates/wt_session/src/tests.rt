// Refused commands leave the names and the text as they were, with five names and with as many as there may be.
ghost use Rattle.std.specs.Prelude.{IfSome};
ghost use Rattle.wt_script.specs.Fits.{Fits, AllFitting};

use crate::limits::{MAX_NAMES, MAX_TEXT};
use crate::{Command, CommandFault, Session, parse_script, run_all};
use std::alloc::Global;
use std::test::Fail;
use wt_search::MAX_LEVELS;

/// Binds five names: the set s, a pattern p over it that isn't valid, the looped chain l, a pattern q over its first
/// set, and the open chain d. Along axis 1 the three tiles of s follow each other in a ring, and along axis 2 each
/// stands on itself alone.
const FIVE: [&str; 6] = [
    "tiles s 19\nF O J O\nF O H L\nJ M F P\nD M F K\nH P J P\nH P H N\nH K F P\nH K D P\nB O I O\nG L E O\nG L C L\nA L I O\nE P G P\nE P I P\nI P G K\nI P I K\nI K B M\nI K A K\nC N I P\n",
    "search l s 12 after 1 8 1000000000000\n",
    "tiles s 3\na u c u\nb v a v\nc w b w\n",
    "pattern p s 2 1\n0 0\n",
    "expand q l 1 1\n",
    "derive d s 1 after 0 1 100\n",
];

/// What these commands print.
const BOUND: &str =
    "tiles 19 colours 10 6\nsets 19 21 19\nloop 0 2\nrenaming 1 0 3 7 6 2 5 4 11 8 10 9 15 17 14 18 13 12 16\ntiles 3 colours 3 3\npattern 2 1\n0\nsets 3 2\n2\n0 1\n";

/// A command, its status and its line.
type Row = (&'static str, u8, &'static str);

/// Commands that are refused with these five names.
const REFUSED: [Row; 64] = [
    ("tiles n 0\n", 1, "refused set empty\n"),
    (
        "tiles n 3\na u a u\nb u a u\na u a u\n",
        1,
        "refused repeated 0 2\n",
    ),
    ("pattern n x 1 1\n9\n", 1, "refused unknown x\n"),
    ("pattern n l 1 1\n9\n", 1, "refused kind l\n"),
    ("pattern n s 2 2\n4 0\n0 3\n", 1, "refused tile 3 at 1 0\n"),
    ("valid x\n", 1, "refused unknown x\n"),
    ("valid s\n", 1, "refused kind s\n"),
    ("period x 1 0\n", 1, "refused unknown x\n"),
    ("period d 1 0\n", 1, "refused kind d\n"),
    ("dominoes x 1 0 0\n", 1, "refused unknown x\n"),
    ("dominoes p 1 0 0\n", 1, "refused kind p\n"),
    ("dominoes s 1 0 0\n", 6, "spent axis 1 pair 0 1\n"),
    ("surround x 1 3 3 0 0\n", 1, "refused unknown x\n"),
    ("surround q 1 3 3 0 0\n", 1, "refused kind q\n"),
    ("surround s 1 3 4 0 0\n", 1, "refused tile 3\n"),
    ("surround s 1 0 4 0 0\n", 1, "refused tile 4\n"),
    ("surround s 1 1 2 0 0\n", 6, "spent axis 1 pair 1 2\n"),
    ("markers x 2 0 0\n", 1, "refused unknown x\n"),
    ("markers l 2 0 0\n", 1, "refused kind l\n"),
    ("markers s 2 0 0\n", 6, "spent axis 1 pair 0 1\n"),
    ("fuse x 1 3 4\n", 1, "refused unknown x\n"),
    ("fuse p 1 3 4\n", 1, "refused kind p\n"),
    ("fuse s 1 3 4\n", 1, "refused tile 3\n"),
    ("fuse s 1 0 4\n", 1, "refused tile 4\n"),
    ("fuse s 1 0 0\n", 1, "refused no match\n"),
    ("same s x\n", 1, "refused unknown x\n"),
    ("same p x\n", 1, "refused kind p\n"),
    ("derive n x 1 after 0 3 0\n", 1, "refused unknown x\n"),
    ("derive n p 1 after 0 3 0\n", 1, "refused kind p\n"),
    ("derive n l 1 after 0 3 0\n", 1, "refused looped\n"),
    (
        "derive n s 1 after 0 3 0\n",
        6,
        "spent level 0 axis 1 pair 0 1\n",
    ),
    (
        "derive n d 1 after 0 3 0\n",
        6,
        "spent level 1 axis 1 pair 0 1\n",
    ),
    (
        "derive n s 1 after 0 3 100\n",
        1,
        "refused no marker level 0\n",
    ),
    (
        "derive n d 2 after 0 0 100\n",
        1,
        "refused no marker level 1\n",
    ),
    ("search n x 1 after 0 1 0\n", 1, "refused unknown x\n"),
    ("search n d 1 after 0 1 0\n", 1, "refused kind d\n"),
    (
        "search n s 1 after 0 1 0\n",
        6,
        "spent level 0 axis 1 pair 0 1\n",
    ),
    (
        "search n s 2 after 0 1 100\n",
        1,
        "refused no marker level 0\n",
    ),
    ("search n s 1 after 0 1 100\n", 1, "refused levels\n"),
    ("cert x\n", 1, "refused unknown x\n"),
    ("cert s\n", 1, "refused kind s\n"),
    ("check n 1\nx\n", 1, "refused syntax line 1\n"),
    (
        "check n 2\ncertificate 1\nsteps 33\n",
        5,
        "limit steps line 2\n",
    ),
    ("expand n x 1 1\n", 1, "refused unknown x\n"),
    ("expand n d 1 1\n", 1, "refused open chain\n"),
    ("image d 9\n", 1, "refused open chain\n"),
    ("image l 19\n", 1, "refused tile 19\n"),
    ("desub n x 0 y\n", 1, "refused unknown x\n"),
    ("desub n s 0 y\n", 1, "refused kind s\n"),
    ("desub n l 2 y\n", 1, "refused unknown y\n"),
    ("desub n l 2 p\n", 1, "refused step 2\n"),
    ("desub n l 1 q\n", 1, "refused other set\n"),
    ("desub n d 0 p\n", 1, "refused not valid axis 1 at 0 0\n"),
    ("desub n l 0 q\n", 1, "refused too small\n"),
    ("bound d 0 0\n", 1, "refused open chain\n"),
    ("bound l 0 0\n", 1, "refused zero vector\n"),
    ("bound l 9223372036854775807 0\n", 5, "limit size\n"),
    ("primitive d\n", 1, "refused open chain\n"),
    ("seeds d 1\n", 1, "refused open chain\n"),
    ("census d 4096 19\n", 1, "refused open chain\n"),
    ("census l 4096 19\n", 1, "refused tile 19\n"),
    ("census l 4096 0\n", 5, "limit count\n"),
    ("draw s boxes\n", 1, "refused kind s\n"),
    ("json x\n", 1, "refused unknown x\n"),
];

/// Binds five names: the sets e, r, m and f, and the open chain c with as many steps as there may be. The kept class of
/// e stands before no tile; each of m stands behind each other tile; and the images of r are one tile.
const SETS: [&str; 5] = [
    "tiles e 2\nx n y n\nz m x m\n",
    "tiles r 4\ny m x m\ny m z m\nx n w n\nz n w n\n",
    "tiles m 33\ny0 m x m\ny1 m x m\ny2 m x m\ny3 m x m\ny4 m x m\ny5 m x m\ny6 m x m\ny7 m x m\ny8 m x m\ny9 m x m\ny10 m x m\ny11 m x m\ny12 m x m\ny13 m x m\ny14 m x m\ny15 m x m\ny16 m x m\nx n w0 n\nx n w1 n\nx n w2 n\nx n w3 n\nx n w4 n\nx n w5 n\nx n w6 n\nx n w7 n\nx n w8 n\nx n w9 n\nx n w10 n\nx n w11 n\nx n w12 n\nx n w13 n\nx n w14 n\nx n w15 n\n",
    "tiles f 3\na u a u\nb v a v\nb w b w\n",
    "derive c f 1 after 0 0 100\n",
];

/// Commands that are refused with these five names.
const UNDERIVED: [Row; 8] = [
    (
        "derive n e 1 before 0 0 100\n",
        1,
        "refused empty set level 0\n",
    ),
    (
        "derive n r 1 after 0 0 100\n",
        1,
        "refused repeated level 0\n",
    ),
    ("derive n m 1 after 0 0 100\n", 5, "limit tiles level 0\n"),
    ("derive n c 1 after 0 3 0\n", 5, "limit steps\n"),
    (
        "search n e 1 before 0 32 100\n",
        1,
        "refused empty set level 0\n",
    ),
    (
        "search n r 1 after 0 32 100\n",
        1,
        "refused repeated level 0\n",
    ),
    ("search n m 1 after 0 32 100\n", 5, "limit tiles level 0\n"),
    (
        "search n f 1 after 0 32 100\n",
        1,
        "refused not growing start 0\n",
    ),
];

/// Binds five names: the four quarters t, a partition h whose move is half the length, a partition o with two regions
/// one upon the other, the code c, and the set s.
const PARTITIONS: [&str; 5] = [
    "torus t 1:0:1 1:0:1 2:-1:1 2:-1:1 4\nregion 0 2\n-1 0 0 0 -1 1\n0 0 -1 0 -1 1\nregion 1 2\n1 0 0 0 1 -1\n0 0 -1 0 -1 1\nregion 2 2\n-1 0 0 0 -1 1\n0 0 1 0 1 -1\nregion 3 2\n1 0 0 0 1 -1\n0 0 1 0 1 -1\n",
    "torus h 1:0:1 262145:0:1 1:0:2 1:0:1 0\n",
    "torus o 1:0:1 1:0:1 2:-1:1 2:-1:1 2\nregion 0 0\nregion 1 1\n1 0 0 0 1 -1\n",
    "code c t 2:-1:1 1:0:10 21 1\n",
    "tiles s 1\nx n x n\n",
];

/// What these commands print. The code is the Fibonacci word, made by 0 to 01 and 1 to 0.
const DIVIDED: &str =
    "torus 4 regions 4 labels\ntorus 0 regions 0 labels\ntorus 2 regions 2 labels\n0 1 0 0 1 0 1 0 0 1 0 0 1 0 1 0 0 1 0 1 0\ntiles 1 colours 1 1\n";

/// What is bound to these names, as JSON.
const DIVIDED_TOLD: [&str; 5] = ["json t\n", "json h\n", "json o\n", "json c\n", "json s\n"];

/// Commands that are refused with these five names.
const UNDIVIDED: [Row; 21] = [
    (
        "torus n 1:0:1 1:0:1 1:0:1 2:-1:1 1\nregion 0 1\n0 0 0 0 1 0\n",
        1,
        "refused torus\n",
    ),
    (
        "torus n 1:0:1 1:0:1 2:-1:1 -1:0:2 0\n",
        1,
        "refused torus\n",
    ),
    (
        "torus n 1:0:1 1:0:1 2:-1:1 2:-1:1 2\nregion 0 1\n1 0 0 0 0 0\nregion 1 2\n0 0 0 1 0 0\n0 0 0 0 0 1\n",
        1,
        "refused plane 1 1\n",
    ),
    ("code n x 1:0:1 1:0:1 1 1\n", 1, "refused unknown x\n"),
    ("code n s 1:0:1 1:0:1 1 1\n", 1, "refused kind s\n"),
    ("code n t 1:0:1 1:0:10 1 1\n", 1, "refused outside box\n"),
    ("code n t 1:0:10 -1:0:10 1 1\n", 1, "refused outside box\n"),
    (
        "code n t 32769:0:32768 1:0:32769 1 1\n",
        1,
        "refused outside box\n",
    ),
    ("code n t 1:0:32769 1:0:32768 1 1\n", 5, "limit golden\n"),
    (
        "code n t 1:0:10 0:0:1 1 1\n",
        1,
        "refused unplaced at 0 0\n",
    ),
    (
        "code n o 1:0:10 1:0:10 3 2\n",
        1,
        "refused doubled at 2 0\n",
    ),
    ("induce n x 1\n", 1, "refused unknown x\n"),
    ("induce n c 1\n", 1, "refused kind c\n"),
    ("induce n h 1\n", 1, "refused half\n"),
    ("induce n h 2\n", 5, "limit golden\n"),
    ("valid c\n", 1, "refused no set\n"),
    ("valid t\n", 1, "refused kind t\n"),
    ("fuse t 1 0 0\n", 1, "refused kind t\n"),
    ("cert t\n", 1, "refused kind t\n"),
    ("derive n t 1 after 0 0 0\n", 1, "refused kind t\n"),
    ("draw c boxes\n", 1, "refused no set\n"),
];

/// The first of some commands.
#[tactic(auto, using(crate::proofs::Fitting::first_fits))]
fn first(commands: &[Command]) -> Option<&Command>
    requires { AllFitting commands.now }
    ensures { IfSome result (λ c. Fits c.now.word) }
{
    if commands.is_empty() {
        None
    } else {
        Some(&commands[0])
    }
}

/// Runs a command that is given as text.
fn run(
    alloc: Global,
    session: &mut Session,
    out: &mut Vec<u8>,
    text: &str,
) -> Option<Result<(), CommandFault>> {
    let commands = parse_script(alloc, text.as_bytes()).ok()?;
    Some(session.run(first(&commands)?, out))
}

/// Runs commands, none of which is refused.
fn run_each(alloc: Global, session: &mut Session, out: &mut Vec<u8>, texts: &[&str]) -> Option<()> {
    for text in texts {
        run(alloc, session, out, *text)?.ok()?;
    }
    Some(())
}

/// A session with the five names, and what was printed.
fn five(alloc: Global) -> Option<(Session, Vec<u8>)> {
    let mut session = Session::new(alloc);
    let mut out = Vec::new(alloc);
    run_each(alloc, &mut session, &mut out, &FIVE)?;
    Some((session, out))
}

/// What is bound to the names of the first of these, as JSON.
const TOLD: [&str; 5] = ["json s\n", "json p\n", "json q\n", "json l\n", "json d\n"];

/// The same of the others.
const SETS_TOLD: [&str; 5] = ["json e\n", "json r\n", "json m\n", "json f\n", "json c\n"];

/// What these commands answer.
fn told(alloc: Global, session: &mut Session, texts: &[&str]) -> Option<Vec<u8>> {
    let mut out = Vec::new(alloc);
    run_each(alloc, session, &mut out, texts)?;
    Some(out)
}

/// Whether a command is refused so, and leaves what was printed, what these others answer, and the name n free.
fn is_refused(
    alloc: Global,
    session: &mut Session,
    out: &mut Vec<u8>,
    row: &Row,
    texts: &[&str],
) -> Option<bool> {
    let printed = out.as_slice().to_vec(alloc).ok()?;
    let before = told(alloc, session, texts)?;
    let ended = run(alloc, session, out, row.0)?;
    let after = told(alloc, session, texts)?;
    let free = run(alloc, session, out, "json n\n")?;
    let stays = *out == printed && after == before;
    Some(stays && is_refusal(ended, row.1, row.2) && is_refusal(free, 1, "refused unknown n\n"))
}

fn is_refusal(ended: Result<(), CommandFault>, status: u8, line: &str) -> bool {
    match ended {
        Err(CommandFault::Refused { status: s, text }) => {
            s == status && text.as_slice() == line.as_bytes()
        }
        _ => false,
    }
}

#[test]
fn binds_five_names(rt: HostRuntime) -> Result<(), Fail> {
    let (mut session, out) = five(rt.alloc()).ok_or("five")?;
    assert!(rt; out.as_slice() == BOUND.as_bytes());
    let mut more = Vec::new(rt.alloc());
    let free = run(rt.alloc(), &mut session, &mut more, "json n\n").ok_or("read")?;
    assert!(rt; is_refusal(free, 1, "refused unknown n\n"));
    Ok(())
}

#[test]
fn leaves_five_names_as_they_were(rt: HostRuntime) -> Result<(), Fail> {
    let alloc = rt.alloc();
    let (mut session, mut out) = five(alloc).ok_or("five")?;
    for row in &REFUSED {
        let is_so = is_refused(alloc, &mut session, &mut out, row, &TOLD);
        assert!(rt; is_so == Some(true), "{}", row.0);
    }
    Ok(())
}

/// A session with the four sets and the longest chain, and what was printed.
fn five_sets(alloc: Global) -> Option<(Session, Vec<u8>)> {
    let mut session = Session::new(alloc);
    let mut out = Vec::new(alloc);
    run_each(alloc, &mut session, &mut out, &SETS)?;
    for _ in 1..MAX_LEVELS {
        run(
            alloc,
            &mut session,
            &mut out,
            "derive c c 1 after 0 0 100\n",
        )?
        .ok()?;
    }
    Some((session, out))
}

#[test]
fn derives_no_step_where_there_is_none(rt: HostRuntime) -> Result<(), Fail> {
    let alloc = rt.alloc();
    let (mut session, mut out) = five_sets(alloc).ok_or("five")?;
    for row in &UNDERIVED {
        let is_so = is_refused(alloc, &mut session, &mut out, row, &SETS_TOLD);
        assert!(rt; is_so == Some(true), "{}", row.0);
    }
    Ok(())
}

/// A session with the three partitions, the code and the set, and what was printed.
fn five_divided(alloc: Global) -> Option<(Session, Vec<u8>)> {
    let mut session = Session::new(alloc);
    let mut out = Vec::new(alloc);
    run_each(alloc, &mut session, &mut out, &PARTITIONS)?;
    Some((session, out))
}

#[test]
fn codes_a_point_by_the_fibonacci_word(rt: HostRuntime) -> Result<(), Fail> {
    let (_, out) = five_divided(rt.alloc()).ok_or("five")?;
    assert!(rt; out.as_slice() == DIVIDED.as_bytes());
    Ok(())
}

#[test]
fn leaves_partitions_as_they_were(rt: HostRuntime) -> Result<(), Fail> {
    let alloc = rt.alloc();
    let (mut session, mut out) = five_divided(alloc).ok_or("five")?;
    for row in &UNDIVIDED {
        let is_so = is_refused(alloc, &mut session, &mut out, row, &DIVIDED_TOLD);
        assert!(rt; is_so == Some(true), "{}", row.0);
    }
    Ok(())
}

/// A session with as many names as there may be, and what was printed.
fn crowded(alloc: Global) -> Option<(Session, Vec<u8>)> {
    let mut session = Session::new(alloc);
    let mut out = Vec::new(alloc);
    for i in 0..MAX_NAMES {
        let text = format!(in alloc; "tiles a{i} 1\nx n x n\n").ok()?;
        run(alloc, &mut session, &mut out, text.as_str())?.ok()?;
    }
    run(alloc, &mut session, &mut out, "pattern a1 a0 1 1\n0\n")?.ok()?;
    Some((session, out))
}

/// What is bound to all of these names.
fn told_all(alloc: Global, session: &mut Session) -> Option<Vec<u8>> {
    let mut out = Vec::new(alloc);
    for i in 0..MAX_NAMES {
        let text = format!(in alloc; "json a{i}\n").ok()?;
        run(alloc, session, &mut out, text.as_str())?.ok()?;
    }
    Some(out)
}

/// The refusals of a command come first, then the limit on names, then that on the text.
#[test]
fn binds_no_name_beside_1024_others(rt: HostRuntime) -> Result<(), Fail> {
    let alloc = rt.alloc();
    let (mut session, mut out) = crowded(alloc).ok_or("crowded")?;
    let before = told_all(alloc, &mut session).ok_or("told")?;
    let long = out.len();
    let mut full = vec![in alloc; b'x'; MAX_TEXT]?;
    let new = ("tiles n 1\nx n x n\n", 5, "limit names\n");
    let empty = ("tiles n 0\n", 1, "refused set empty\n");
    let old = ("tiles a0 1\ny n y n\n", 5, "limit output\n");
    for (text, status, line) in [new, empty] {
        let ended = run(alloc, &mut session, &mut out, text).ok_or("read")?;
        assert!(rt; is_refusal(ended, status, line), "{text}");
        assert_eq!(rt; out.len(), long);
    }
    for (text, status, line) in [new, empty, old] {
        let ended = run(alloc, &mut session, &mut full, text).ok_or("read")?;
        assert!(rt; is_refusal(ended, status, line), "{text}");
        assert_eq!(rt; full.len(), MAX_TEXT);
    }
    let after = told_all(alloc, &mut session).ok_or("told")?;
    assert!(rt; after == before);
    Ok(())
}

/// The longest text that may be printed ends with the answer of the last command.
#[test]
fn prints_64_mebibytes(rt: HostRuntime) -> Result<(), Fail> {
    let alloc = rt.alloc();
    let (mut session, _) = crowded(alloc).ok_or("crowded")?;
    let mut out = vec![in alloc; b'x'; MAX_TEXT - 6]?;
    run_each(alloc, &mut session, &mut out, &["valid a1\n"]).ok_or("valid")?;
    assert_eq!(rt; out.len(), MAX_TEXT);
    assert!(rt; out.as_slice().ends_with(b"xvalid\n"));
    Ok(())
}

#[test]
fn runs_to_the_first_refusal(rt: HostRuntime) -> Result<(), Fail> {
    let script = b"# a ring of one\ntiles s 1\nx n x n\n\njson t\njson s\n";
    let commands = parse_script(rt.alloc(), script).ok().ok_or("read")?;
    let (status, text) = run_all(rt.alloc(), &commands)?;
    assert_eq!(rt; status, 1);
    let want = b"tiles 1 colours 1 1\nline 5: refused unknown t\n".as_slice();
    assert!(rt; text.as_slice() == want);
    Ok(())
}
