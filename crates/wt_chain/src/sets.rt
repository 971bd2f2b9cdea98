// The tile sets between steps.
ghost use Rattle.std.specs.Prelude.{◌≡◌, ◌∷◌, option_map};
ghost use Rattle.std.specs.Cmp.Lexicographic.{pointwise};
ghost use Rattle.std.specs.Str.{bytes_eq};
ghost use Rattle.wt_step.specs.Links.{fine_of, coarse_of};
ghost use Rattle.wt_chain.specs.Sets.{set_behind};
ghost use Rattle.wt_chain.specs.Sets as spec;

use wt_step::RawLink;
use wt_tile::{Name, TileList};

/// The set that a step takes apart.
pub fn fine_set(link: &RawLink) -> &TileList
    ensures { result.now ≡ fine_of link.now }
{
    match link {
        RawLink::Marker(step) => &step.fine,
        RawLink::Restrict(step) => &step.fine,
    }
}

/// The set of the coarse patterns.
pub fn coarse_set(link: &RawLink) -> &TileList
    ensures { result.now ≡ coarse_of link.now }
{
    match link {
        RawLink::Marker(step) => &step.coarse,
        RawLink::Restrict(step) => &step.coarse,
    }
}

fn same_names(a: &[Name], b: &[Name]) -> bool
    ensures { result ≡ pointwise bytes_eq a.now b.now }
{
    let mut left = a;
    let mut right = b;
    while let [name, after @ ..] = left {
        let [other, behind @ ..] = right else {
            return false;
        };
        if name.bytes() != other.bytes() {
            return false;
        }
        left = after;
        right = behind;
    }
    right.is_empty()
}

/// Whether two lists have the same tiles and names.
pub fn same_set(a: &TileList, b: &TileList) -> bool
    ensures { result ≡ spec.same_set a.now b.now }
{
    a.tiles.as_slice() == b.tiles.as_slice()
        && same_names(a.names1.as_slice(), b.names1.as_slice())
        && same_names(a.names2.as_slice(), b.names2.as_slice())
}

/// Whether a set is that before it, where there is one.
pub fn follows(before: Option<&TileList>, set: &TileList) -> bool
    ensures { result ≡ spec.follows (option_map (λ set. set.now) before.entry) set.now }
{
    match before {
        None => true,
        Some(before) => same_set(before, set),
    }
}

/// How many tiles the first set of these steps has; none where there is no step.
pub fn first_count(links: &[RawLink]) -> usize
    ensures { result ≡ spec.first_count links.now }
{
    match links {
        [] => 0,
        [first, ..] => fine_set(first).tiles.as_slice().len(),
    }
}

/// The set behind these steps; the first one where there is none.
pub fn last_set<'a>(first: &'a TileList, links: &'a [RawLink]) -> &'a TileList
    ensures { result.now ≡ spec.last_set first.now links.now }
{
    let mut set = first;
    for link in links {
        set = coarse_set(link);
    }
    set
}

/// The set behind the last step, where there is one.
pub fn set_behind_all(links: &[RawLink]) -> Option<&TileList>
    ensures { option_map (λ set. set.now) result ≡ set_behind links.now }
{
    match links {
        [] => None,
        [first, others @ ..] => Some(last_set(coarse_set(first), others)),
    }
}
