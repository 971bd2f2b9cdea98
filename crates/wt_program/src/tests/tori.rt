// Partitions that are read from a text of their own.
use std::alloc::Global;
use std::test::Fail;
use wt_line::{TextFault, What};
use wt_session::{TorusTextFault, read_torus};

/// The unit box in three columns.
const THREE: &str =
    "torus 1:0:1 1:0:1 2:-1:1 2:-1:1 3\nregion 0 2\n1 0 0 0 -2 1\n-1 0 0 0 -1 1\nregion 1 1\n-1 0 0 0 2 -1\nregion 2 1\n1 0 0 0 1 -1\n";

/// Texts that say no partition, and why.
const FAULTS: [(&str, TorusTextFault); 5] = [
    ("", TorusTextFault::Text(TextFault::Syntax { line: 1 })),
    (
        "torus 1:0:1 1:0:1 1:0:1 1:0:3 1\nregion 0 1\n0 0 1 0 0\n",
        TorusTextFault::Text(TextFault::Syntax { line: 3 }),
    ),
    (
        "torus 1:0:1 1:0:1 1:0:1 1:0:3 1\nregion 256 0\n",
        TorusTextFault::Text(TextFault::Limit {
            what: What::Tiles,
            line: 2,
        }),
    ),
    (
        "torus 1:0:1 1:0:1 1:0:1 1:0:3 1\nregion 0 1\n0 0 0 0 1 0\n",
        TorusTextFault::Torus,
    ),
    (
        "torus 1:0:1 1:0:1 1:0:3 1:0:3 2\nregion 0 1\n1 0 0 0 0 0\nregion 0 2\n0 1 0 0 0 0\n0 0 0 0 1 0\n",
        TorusTextFault::Plane {
            region: 1,
            plane: 1,
        },
    ),
];

/// Whether a text says no partition for this reason.
fn is_refused(alloc: Global, text: &str, fault: TorusTextFault) -> bool {
    match read_torus(alloc, text.as_bytes()) {
        Ok(_) => false,
        Err(other) => other == fault,
    }
}

#[test]
fn reads_three_columns(rt: HostRuntime) -> Result<(), Fail> {
    let p = read_torus(rt.alloc(), THREE.as_bytes())
        .ok()
        .ok_or("partition")?;
    let regions = p.regions.as_slice();
    assert_eq!(rt; regions.len(), 3);
    let last = regions.get(2).ok_or("region")?;
    assert_eq!(rt; last.label, 2);
    let first = regions.first().ok_or("region")?;
    let plane = first.region.planes.as_slice().get(1).ok_or("plane")?;
    assert_eq!(rt; plane.numbers(), [-1, 0, 0, 0, -1, 1]);
    assert_eq!(rt; p.torus.move1().parts(), (2, -1, 1));
    Ok(())
}

#[test]
fn refuses_what_is_no_partition(rt: HostRuntime) -> Result<(), Fail> {
    for (text, fault) in FAULTS {
        assert!(rt; is_refused(rt.alloc(), text, fault), "at {text}");
    }
    Ok(())
}
