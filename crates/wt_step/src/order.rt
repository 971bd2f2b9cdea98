// Lists in strict order, and look-ups in them.
ghost use Rattle.std.specs.Prelude.{◌≡◌};
ghost use Rattle.wt_grid.specs.Order.{in_order, leads, is_below, comes_before};
ghost use Rattle.wt_grid.specs.Pairs.{pairs_follow};
ghost use Rattle.wt_grid.specs.Pairs as spec;

/// Whether numbers ascend and are below a bound.
pub fn numbers_ascend(below: usize, numbers: &[u16]) -> bool
    ensures { result ≡ in_order (is_below below) comes_before numbers.now }
{
    let mut left = numbers;
    while let [number, after @ ..] = left {
        if usize::from(*number) >= below || !number_leads(*number, after) {
            return false;
        }
        left = after;
    }
    true
}

fn number_leads(number: u16, after: &[u16]) -> bool
    ensures { result ≡ leads comes_before number after.now }
{
    match after {
        [] => true,
        [next, ..] => number < *next,
    }
}

/// Whether a pair comes before (a, b).
pub fn pair_before(a: u16, b: u16, pair: (u16, u16)) -> bool
    ensures { result ≡ spec.pair_before a b pair }
{
    pair.0 < a || (pair.0 == a && pair.1 < b)
}

/// Whether a pair is (a, b).
pub fn is_pair(a: u16, b: u16, pair: (u16, u16)) -> bool
    ensures { result ≡ spec.is_this_pair a b pair }
{
    pair.0 == a && pair.1 == b
}

fn pair_fits(below: usize, pair: (u16, u16)) -> bool
    ensures { result ≡ spec.pair_fits below pair }
{
    usize::from(pair.0) < below && usize::from(pair.1) < below
}

fn pair_leads(pair: (u16, u16), after: &[(u16, u16)]) -> bool
    ensures { result ≡ leads pairs_follow pair after.now }
{
    match after {
        [] => true,
        [next, ..] => pair_before(next.0, next.1, pair),
    }
}

/// Whether pairs ascend and their numbers are below a bound.
pub fn pairs_ascend(below: usize, pairs: &[(u16, u16)]) -> bool
    ensures { result ≡ in_order (spec.pair_fits below) pairs_follow pairs.now }
{
    let mut left = pairs;
    while let [pair, after @ ..] = left {
        if !pair_fits(below, *pair) || !pair_leads(*pair, after) {
            return false;
        }
        left = after;
    }
    true
}
