// Rows and masks whose answers are known.
use crate::{all_below, and_into, any, count_equal, count_ones, first_difference, lowest};

#[test]
fn rows_of_37_differ_at_the_last(rt: HostRuntime) {
    let a = [7u16; 37];
    let mut b = a;
    b[36] = 8;
    assert_eq!(rt; first_difference(&a, &b), Some(36));
    assert_eq!(rt; first_difference(&[], &[]), None);
    assert_eq!(rt; count_equal(&b, 7), 36);
    assert!(rt; all_below(&b, 9));
    assert!(rt; !all_below(&b, 8));
}

#[test]
fn bit_191_stands_in_the_third_word(rt: HostRuntime) {
    let mut mask = [0, 0, 1 << 63, 0];
    assert_eq!(rt; lowest(&mask), Some(191));
    assert_eq!(rt; count_ones(&mask), 1);
    and_into(&mut mask, &[u64::MAX, u64::MAX, 1, u64::MAX]);
    assert!(rt; !any(&mask));
}
