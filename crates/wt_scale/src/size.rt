// How large a pattern has to be so that a vector is no period of it.
ghost use Rattle.std.specs.Prelude.{◌≡◌, ◌*◌, ◌^◌, ◌<◌, ◌≤◌, length, SomeIff};
ghost use Rattle.wt_scale.specs.Scales as scales;
ghost use Rattle.wt_scale.specs.Sizes as sizes;
ghost use Rattle.wt_scale.specs.Vectors.{size_result};
ghost use Rattle.wt_scale.specs.Vectors as vectors;

use wt_chain::{Accepted, End};
use wt_step::RawLink;

/// Why a chain has no size for a vector, in the order in which the conditions are tested.
#[derive(Clone, Copy, Debug, PartialEq, Eq)]
pub enum SizeFault {
    /// The chain isn't closed to a loop.
    OpenChain,
    /// The vector is zero, which is a period of every pattern.
    ZeroVector,
    /// The size is 2^128 or more.
    TooLarge,
}

/// The side that a pattern needs so that its coarse one by a step has this side.
fn side_below(link: &RawLink, side: u128) -> Option<u128>
    ensures { SomeIff result (scales.side_below link.now side < 2 ^ 128) (scales.side_below link.now side) }
{
    match link {
        RawLink::Marker(step) => {
            let margin = 2 * u128::from(step.radius) + 2;
            side.checked_mul(2)?.checked_add(margin)
        }
        RawLink::Restrict(step) => {
            let margin = 2 * u128::from(step.radius);
            side.checked_add(margin)
        }
    }
}

/// The same for the pattern behind a run of steps, of which the last is paid for first.
#[tactic(auto, using(crate::proofs::Standing::larger_below))]
fn size_from(links: &[RawLink], side: u128) -> Option<u128>
    ensures { SomeIff result (sizes.size_from links.now side < 2 ^ 128) (sizes.size_from links.now side) }
{
    let [link, after @ ..] = links else {
        return Some(side);
    };
    side_below(link, size_from(after, side)?)
}

/// The same for the pattern after n turns of a loop.
#[tactic(auto, using(crate::proofs::Standing::larger_turns))]
fn turns_size(links: &[RawLink], turns: u64, side: u128) -> Option<u128>
    ensures { SomeIff result (sizes.turns_size links.now turns side < 2 ^ 128) (sizes.turns_size links.now turns side) }
{
    let mut size = side;
    for turn in 0..turns {
        size = size_from(links, size)?;
    }
    Some(size)
}

/// How many binary digits a number has.
fn digits(m: u64) -> u32
    ensures value { result ≡ vectors.digits m }
    ensures few { result ≤ 64 }
{
    if m == 0 { 0 } else { m.ilog2() + 1 }
}

/// How many turns outgrow numbers of n digits.
fn turns_for(expansion: u32, digits: u32) -> u64
    ensures { result ≡ expansion * digits }
{
    u64::from(expansion) * u64::from(digits)
}

/// The length of a vector's longer component.
fn reach(dx: i64, dy: i64) -> u64
    ensures { result ≡ vectors.reach dx dy }
{
    dx.unsigned_abs().max(dy.unsigned_abs())
}

/// The size for vectors with components of at most m.
#[tactic(auto, using(crate::proofs::Standing::larger_from))]
fn size_up_to(steps: &[RawLink], start: u16, expansion: u32, m: u64) -> Option<u128>
    requires inside { start ≤ length steps.now }
    ensures { SomeIff result (vectors.size_up_to steps.now start expansion m < 2 ^ 128) (vectors.size_up_to steps.now start expansion m) }
{
    let (before, turned) = steps.split_at(usize::from(start));
    let turns = turns_for(expansion, digits(m));
    let size = turns_size(turned, turns, u128::from(m) + 2)?;
    size_from(before, size)
}

/// How large a pattern over the first set of a looped chain has to be, in width and in height, so that the
/// vector (dx, dy) is no period of it: `sizes_exclude_periods` says so. `OpenChain` is answered exactly where the
/// chain isn't looped, else `ZeroVector` exactly where dx and dy are 0, else `TooLarge` exactly where the size
/// is 2^128 or more. Takes no memory.
pub fn size_for(c: &Accepted, dx: i64, dy: i64) -> Result<u128, SizeFault>
    ensures { result ≡ size_result c.now dx dy }
{
    let chain = c.raw();
    let End::Loop {
        start,
        renaming: _,
        expansion,
    } = &chain.end
    else {
        return Err(SizeFault::OpenChain);
    };
    let longest = reach(dx, dy);
    if longest == 0 {
        return Err(SizeFault::ZeroVector);
    }
    match size_up_to(chain.steps.as_slice(), *start, *expansion, longest) {
        Some(size) => Ok(size),
        None => Err(SizeFault::TooLarge),
    }
}
