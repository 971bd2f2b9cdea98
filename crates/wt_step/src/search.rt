// Binary search in lists in strict order.
ghost use Rattle.std.specs.Prelude.{◌≡◌};
ghost use Rattle.std.specs.List.{list_any};
ghost use Rattle.wt_grid.specs.Order.{IsSplit};
ghost use Rattle.wt_grid.specs.Pairs as spec;

use crate::order::{is_pair, pair_before};

/// Whether a pair stands in a list in order.
pub fn has_pair(a: u16, b: u16, pairs: &[(u16, u16)]) -> bool
    requires { IsSplit (spec.pair_before a b) (spec.is_this_pair a b) pairs.now }
    ensures { result ≡ list_any (spec.is_this_pair a b) pairs.now }
{
    let mut left = pairs;
    loop {
        let (front, back) = left.split_at(left.len() / 2);
        match back {
            [] => return false,
            [pair, after @ ..] => {
                if is_pair(a, b, *pair) {
                    return true;
                }
                left = if pair_before(a, b, *pair) {
                    after
                } else {
                    front
                };
            }
        }
    }
}
