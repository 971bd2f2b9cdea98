//! Worked numbers, and each call once.
use crate::{Golden, GoldenFault};
use std::cmp::Ordering;
use std::test::Fail;

/// The parts of a number in lowest terms, or (0, 0, 0) for one that is refused.
fn parts(made: Result<Golden, GoldenFault>) -> (i64, i64, i64) {
    match made {
        Ok(g) => g.parts(),
        Err(_) => (0, 0, 0),
    }
}

#[test]
fn makes_lowest_terms(rt: HostRuntime) -> Result<(), Fail> {
    let rows: [([i64; 3], (i64, i64, i64)); 7] = [
        ([2, -1, 1], (2, -1, 1)),
        ([6, 4, -2], (-3, -2, 1)),
        ([0, 0, 7], (0, 0, 1)),
        ([1_073_741_824, 0, 1_073_741_824], (1, 0, 1)),
        ([i64::MIN, 0, i64::MIN], (1, 0, 1)),
        ([1_073_741_824, 0, 1], (0, 0, 0)),
        ([1, 1, 0], (0, 0, 0)),
    ];
    for (numbers, want) in rows {
        assert_eq!(rt;
            parts(Golden::new(numbers[0], numbers[1], numbers[2])),
            want
        );
    }
    assert!(rt; matches!(Golden::new(1, 1, 0), Err(GoldenFault::ZeroDivisor)));
    assert!(rt; matches!(Golden::new(1_073_741_824, 0, 1), Err(GoldenFault::TooLarge)));
    Ok(())
}

#[test]
fn reckons(rt: HostRuntime) -> Result<(), Fail> {
    if let (Ok(phi), Ok(half), Ok(most)) = (
        Golden::new(0, 1, 1),
        Golden::new(1, 0, 2),
        Golden::new(1_073_741_823, 0, 1),
    ) {
        assert!(rt; matches!(phi.mul(phi), Ok(g) if g.parts() == (1, 1, 1)));
        assert!(rt; matches!(half.add(half), Ok(g) if g.parts() == (1, 0, 1)));
        assert!(rt; matches!(half.sub(phi), Ok(g) if g.parts() == (1, -2, 2)));
        assert!(rt; most.add(half).is_err());
        assert!(rt; matches!(most.mul(phi), Ok(g) if g.parts() == (0, 1_073_741_823, 1)));
        assert_eq!(rt; phi.compare(half), Ordering::Greater);
        assert_eq!(rt; half.compare(half), Ordering::Equal);
        assert_eq!(rt; half.compare(most), Ordering::Less);
    }
    // (2 a + b)² and 5 b² of the difference have 119 bits, of which the first 42 are the same.
    if let (Ok(less), Ok(more)) = (
        Golden::new(-1_073_740_229, 1_073_741_016, 1_073_741_010),
        Golden::new(-652_623_754, 813_476_510, 1_073_740_457),
    ) {
        assert_eq!(rt; less.compare(more), Ordering::Less);
        assert_eq!(rt; more.compare(less), Ordering::Greater);
    }
    if let (Ok(above), Ok(below)) = (Golden::new(2, -1, 1), Golden::new(-2, 1, 1)) {
        assert_eq!(rt; above.sign(), Ordering::Greater);
        assert_eq!(rt; below.sign(), Ordering::Less);
    }
    Ok(())
}
