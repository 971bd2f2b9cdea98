// The first number of a list that spoils it as a renaming.
ghost use Rattle.std.specs.Prelude.{◌≡◌, ◌<◌, ◌≤◌, nat_eq, length, None, Some, IfSome, IfErr};
ghost use Rattle.std.specs.List.{list_any};
ghost use Rattle.wt_bijection.specs.Renaming.{pairs_up, tiles_pair_up, first_wrong};
ghost use Rattle.wt_bijection.specs.Renaming as spec;
ghost use Rattle.wt_grid.specs.Answers.{FailsBy};

use wt_grid::{MAX_TILES, is_among};
use wt_tile::{SetRef, Tile, tile_at};

/// Whether two colours are equal exactly where those that stand for them are.
fn pair_up(a: u16, b: u16, c: u16, d: u16) -> bool
    ensures { result ≡ pairs_up a b c d }
{
    if a == b { c == d } else { c != d }
}

fn tiles_agree(t: Tile, u: Tile, p: Tile, q: Tile) -> bool
    ensures { result ≡ tiles_pair_up t u p q }
{
    pair_up(t.east, u.east, p.east, q.east)
        && pair_up(t.east, u.west, p.east, q.west)
        && pair_up(t.west, u.east, p.west, q.east)
        && pair_up(t.west, u.west, p.west, q.west)
        && pair_up(t.north, u.north, p.north, q.north)
        && pair_up(t.north, u.south, p.north, q.south)
        && pair_up(t.south, u.north, p.south, q.north)
        && pair_up(t.south, u.south, p.south, q.south)
}

/// Whether the colours of tile i pair up with those of the tiles up to it.
#[tactic(auto, using(crate::proofs::All::all_more))]
fn colours_fit(from: &[Tile], to: &[Tile], list: &[u16], i: u16) -> bool
    requires inside { i < length list.now }
    requires small { i < MAX_TILES }
    ensures { result ≡ spec.colours_fit from.now to.now list.now i }
{
    for j in 0..i + 1 {
        let tile = tile_at(from, i);
        let partner = tile_at(to, list[usize::from(i)]);
        if !tiles_agree(
            tile_at(from, j),
            tile,
            tile_at(to, list[usize::from(j)]),
            partner,
        ) {
            return false;
        }
    }
    true
}

fn partner_fits(from: &[Tile], to: &[Tile], list: &[u16], i: u16) -> bool
    requires inside { i < length list.now }
    requires small { i < MAX_TILES }
    ensures { result ≡ spec.partner_fits from.now to.now list.now i }
{
    let partner = list[usize::from(i)];
    usize::from(partner) < to.len()
        && !is_among(partner, &list[..usize::from(i)])
        && colours_fit(from, to, list, i)
}

#[tactic(auto, using(wt_grid::proofs::First::first_more))]
pub(crate) fn wrong_number(from: &[Tile], to: &[Tile], list: &[u16]) -> Option<usize>
    requires few { length from.now ≤ MAX_TILES }
    requires whole { length from.now ≡ length list.now }
    ensures value { result ≡ first_wrong from.now to.now list.now }
    ensures small { IfSome result (λ i. i < MAX_TILES) }
{
    for i in 0..from.len() as u16 {
        if !partner_fits(from, to, list, i) {
            return Some(usize::from(i));
        }
    }
    None
}

/// Whether `list` is a renaming: number i of it is the tile of `to` that tile i of `from` is carried onto, one to
/// one,
/// and there are bijections of the colours of each axis that carry each tile onto its partner (Labbé's equivalence of
/// tile sets).
///
/// Where the two sets and the list differ in length, the fault is the least of the three lengths. Else it is the
/// first
/// i whose number is no tile of `to`, came before, or has colours that disagree with a one-to-one pairing made by the
/// tiles 0 to i.
#[tactic(auto, unfolding(crate::specs::Renaming::renaming_fault))]
pub fn check_renaming(from: SetRef<'_>, to: SetRef<'_>, list: &[u16]) -> Result<(), usize>
    ensures exact { FailsBy result (spec.renaming_fault from.entry.list.now.tiles to.entry.list.now.tiles list.now) }
    ensures small { IfErr result (λ i. i ≤ MAX_TILES) }
{
    let from = from.tiles();
    let to = to.tiles();
    if from.len() != to.len() || from.len() != list.len() {
        return Err(from.len().min(to.len()).min(list.len()));
    }
    match wrong_number(from, to, list) {
        None => Ok(()),
        Some(i) => Err(i),
    }
}
