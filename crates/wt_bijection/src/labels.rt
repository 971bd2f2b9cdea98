// Labels of tiles: numbers that tell tiles of two sets apart which no renaming carries onto each other.
// A tile's label takes in those of its colours, and a colour's those of the tiles that show it, so that after some rounds a label tells of all that hangs together with its tile.
ghost use Rattle.std.specs.Prelude.{◌≡◌, ◌<◌, ◌≤◌, ℕ, length, slice_index};
ghost use Rattle.wt_bijection.specs.Labels.{scrambled, added, cleared, colour_label, AreCleared, AreSummed};
ghost use Rattle.wt_bijection.specs.Labels as spec;

use wt_grid::{MAX_COLOURS, MAX_TILES};
use wt_tile::{Axis, Tile, ahead, behind, tile_at};

/// A label for each of 256 tiles.
pub type Labels = [u64; MAX_TILES];

#[tactic(auto, unfolding(crate::specs::Labels::scrambled))]
fn scramble(x: u64) -> u64
    ensures { result ≡ scrambled x }
{
    x.wrapping_mul(x.wrapping_mul(2).wrapping_add(1))
        .rotate_left(23)
        .wrapping_add(0x9e37_79b9_7f4a_7c15)
}

#[tactic(auto, unfolding(crate::specs::Labels::mixed))]
fn mixed(x: u64, y: u64) -> u64
    ensures { result ≡ spec.mixed x y }
{
    scramble(x.wrapping_add(y))
}

/// The sums of labels at the colours of both axes: room that is made once for many rounds. A round clears what it uses.
#[derive(Drop)]
pub struct Sums {
    one: [u64; MAX_COLOURS],
    two: [u64; MAX_COLOURS],
}

impl Sums {
    /// Room for the sums of a round.
    pub fn new() -> Sums {
        Sums {
            one: [0; MAX_COLOURS],
            two: [0; MAX_COLOURS],
        }
    }
}

fn add_to(sums: &mut [u64; MAX_COLOURS], colour: u16, label: u64)
    ensures { sums.new ≡ added sums.old colour label }
{
    let colour = usize::from(colour);
    if colour < MAX_COLOURS {
        sums[colour] = sums[colour].wrapping_add(label);
    }
}

fn clear_at(sums: &mut [u64; MAX_COLOURS], colour: u16)
    ensures { sums.new ≡ cleared sums.old colour }
{
    let colour = usize::from(colour);
    if colour < MAX_COLOURS {
        sums[colour] = 0;
    }
}

/// Clears the sums of the colours that the tiles show.
fn clear(axis: Axis, tiles: &[Tile], sums: &mut [u64; MAX_COLOURS])
    requires { length tiles.now ≤ MAX_TILES }
    ensures { AreCleared axis tiles.now (length tiles.now) sums.new }
{
    for i in 0..tiles.len() {
        let tile = tile_at(tiles, i as u16);
        clear_at(sums, ahead(axis, tile));
        clear_at(sums, behind(axis, tile));
    }
}

/// Adds up the labels of the colours of an axis.
fn add_labels(axis: Axis, tiles: &[Tile], labels: &Labels, sums: &mut [u64; MAX_COLOURS])
    requires { length tiles.now ≤ MAX_TILES }
    ensures { (c : ℕ) → slice_index sums.old c ≡ 0 → slice_index sums.new c ≡ colour_label axis tiles.now labels.now c }
{
    for i in 0..tiles.len() {
        let label = labels[i];
        let tile = tile_at(tiles, i as u16);
        add_to(sums, ahead(axis, tile), label);
        add_to(sums, behind(axis, tile), scramble(label));
    }
}

/// The labels of the colours that the tiles show.
fn sum_labels(axis: Axis, tiles: &[Tile], labels: &Labels, sums: &mut [u64; MAX_COLOURS])
    requires { length tiles.now ≤ MAX_TILES }
    ensures { AreSummed axis tiles.now labels.now sums.new }
{
    clear(axis, tiles, sums);
    add_labels(axis, tiles, labels, sums);
}

fn label_at(sums: &[u64; MAX_COLOURS], colour: u16) -> u64
    ensures { result ≡ slice_index sums.now colour }
{
    let colour = usize::from(colour);
    if colour < MAX_COLOURS {
        sums[colour]
    } else {
        0
    }
}

fn next_label(tile: Tile, own: u64, sums: &Sums) -> u64
    ensures { result ≡ spec.mixed_in own
        (slice_index sums.now.one tile.east) (slice_index sums.now.two tile.north)
        (slice_index sums.now.one tile.west) (slice_index sums.now.two tile.south) }
{
    let east = mixed(own, label_at(&sums.one, tile.east));
    let north = mixed(east, label_at(&sums.two, tile.north));
    let west = mixed(north, label_at(&sums.one, tile.west));
    mixed(west, label_at(&sums.two, tile.south))
}

fn next_labels(tiles: &[Tile], labels: &mut Labels, sums: &mut Sums)
    requires { length tiles.now ≤ MAX_TILES }
    ensures { labels.new ≡ spec.next_labels tiles.now labels.old }
{
    sum_labels(Axis::One, tiles, labels, &mut sums.one);
    sum_labels(Axis::Two, tiles, labels, &mut sums.two);
    for i in 0..tiles.len() {
        labels[i] = next_label(tile_at(tiles, i as u16), labels[i], sums);
    }
}

/// The labels after n rounds.
#[tactic(auto, using(crate::proofs::Sums::rounds_more, crate::proofs::Kept::next_length))]
pub fn rounds(tiles: &[Tile], count: u16, labels: &Labels, sums: &mut Sums) -> Labels
    requires { length tiles.now ≤ MAX_TILES }
    ensures value { result ≡ spec.rounds tiles.now count labels.now }
    ensures long { length result ≡ MAX_TILES }
{
    let mut now = *labels;
    for round in 0..count {
        next_labels(tiles, &mut now, sums);
    }
    now
}

/// The labels with that of tile t made another one.
pub fn marked(labels: &Labels, t: u16) -> Labels
    requires { t < MAX_TILES }
    ensures { result ≡ spec.marked labels.now t }
{
    let mut next = *labels;
    let t = usize::from(t);
    next[t] = scramble(scramble(next[t]));
    next
}

/// All labels in one number, in whatever order.
pub fn label_sum(labels: &Labels, count: usize) -> u64
    requires { count ≤ MAX_TILES }
    ensures { result ≡ spec.label_sum labels.now count }
{
    let mut sum = 0u64;
    for i in 0..count {
        sum = sum.wrapping_add(scramble(labels[i]));
    }
    sum
}

/// The sum of all labels some rounds after tile t was told apart.
fn apart_label(tiles: &[Tile], count: u16, labels: &Labels, t: u16, sums: &mut Sums) -> u64
    requires few { length tiles.now ≤ MAX_TILES }
    requires inside { t < MAX_TILES }
    ensures { result ≡ spec.apart_label tiles.now count labels.now t }
{
    if usize::from(t) >= tiles.len() {
        return 0;
    }
    label_sum(&rounds(tiles, count, &marked(labels, t), sums), tiles.len())
}

/// For each tile the sum of all labels some rounds after it was told apart.
pub fn apart_labels(tiles: &[Tile], count: u16, labels: &Labels, sums: &mut Sums) -> Labels
    requires { length tiles.now ≤ MAX_TILES }
    ensures value { result ≡ spec.apart_labels tiles.now count labels.now }
    ensures long { length result ≡ MAX_TILES }
{
    let mut next = [0u64; MAX_TILES];
    for t in 0..256u16 {
        next[usize::from(t)] = apart_label(tiles, count, labels, t, sums);
    }
    next
}

/// How many different labels n tiles have.
fn count_labels(labels: &Labels, count: usize) -> usize
    requires { count ≤ MAX_TILES }
{
    let mut sorted = *labels;
    let shown = &mut sorted[..count];
    shown.sort_unstable();
    let mut kinds = 0usize;
    let mut last = 0u64;
    for (i, label) in shown.iter().enumerate() {
        if i == 0 || *label != last {
            kinds = kinds.saturating_add(1);
        }
        last = *label;
    }
    kinds
}

/// How many rounds tell all tiles apart that can be told, and one more. Nothing rests on this number but time.
pub fn rounds_wanted(tiles: &[Tile], labels: &Labels, sums: &mut Sums) -> u16
    requires { length tiles.now ≤ MAX_TILES }
{
    let count = tiles.len();
    let mut now = *labels;
    let mut kinds = count_labels(&now, count);
    for round in 1..256u16 {
        if kinds == count {
            return round;
        }
        next_labels(tiles, &mut now, sums);
        let more = count_labels(&now, count);
        if more <= kinds {
            return round;
        }
        kinds = more;
    }
    256
}

/// The same once one tile is told apart, whichever it is.
pub fn rounds_apart(tiles: &[Tile], labels: &Labels, sums: &mut Sums) -> u16
    requires { length tiles.now ≤ MAX_TILES }
{
    let mut most = 0u16;
    for t in 0..tiles.len() as u16 {
        most = most.max(rounds_wanted(tiles, &marked(labels, t), sums));
    }
    most
}
