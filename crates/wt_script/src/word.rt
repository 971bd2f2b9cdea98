// The commands of a script.
use crate::torus::RawRegion;
use wt_golden::Golden;
use wt_grid::{Axis, Side};
use wt_pattern::{Pattern, Style};
use wt_seq::Seq;
use wt_tile::TileList;

/// A command: its word, what stands behind it, and its own lines. A name is the bytes of a script's name: 1 to 32 small
/// letters, digits and `_`, the first one a letter. `name` is the name that the command binds.
#[derive(Drop)]
pub enum Word {
    /// `tiles N n`, and n rows of names: a tile set.
    Tiles {
        /// The name that is bound.
        name: Seq<u8>,
        /// The tiles, with their colours numbered by first coming. They may be none, or one of them twice.
        list: TileList,
    },
    /// `pattern N S w h`, and h rows: a pattern over a set.
    Pattern {
        /// The name that is bound.
        name: Seq<u8>,
        /// The set.
        set: Seq<u8>,
        /// The numbers of the tiles. They may be more than the set has.
        cells: Pattern,
    },
    /// `valid P`: whether all neighbours match.
    Valid {
        /// The pattern.
        pattern: Seq<u8>,
    },
    /// `period P x y`: whether a vector is a period.
    Period {
        /// The pattern.
        pattern: Seq<u8>,
        /// How far the vector goes along axis 1, below 2^63 in length.
        dx: i64,
        /// How far it goes along axis 2, below 2^63 in length.
        dy: i64,
    },
    /// `dominoes S A r B`: the pairs of tiles that a window surrounds.
    Dominoes {
        /// The set.
        set: Seq<u8>,
        /// The axis along which the two tiles of a pair are neighbours.
        axis: Axis,
        /// The radius of the windows, at most 4.
        radius: u8,
        /// The trials that each search may take.
        budget: u64,
    },
    /// `surround S A a b r B`: the least window round two tiles.
    Surround {
        /// The set.
        set: Seq<u8>,
        /// The axis along which the two tiles are neighbours.
        axis: Axis,
        /// The first of the two, along the axis.
        a: u16,
        /// The second of the two.
        b: u16,
        /// The radius of the window, at most 4.
        radius: u8,
        /// The trials that the search may take.
        budget: u64,
    },
    /// `markers S A r B`: the classes of markers.
    Markers {
        /// The set.
        set: Seq<u8>,
        /// The axis of the markers.
        axis: Axis,
        /// The radius of the windows, at most 4.
        radius: u8,
        /// The trials that each search may take.
        budget: u64,
    },
    /// `fuse S A u v`: the edges of two tiles that are taken for one.
    Fuse {
        /// The set.
        set: Seq<u8>,
        /// The axis along which the two tiles are neighbours.
        axis: Axis,
        /// The first of the two, along the axis.
        u: u16,
        /// The second of the two.
        v: u16,
    },
    /// `same S T`: a renaming of one set to another.
    Same {
        /// The set whose tiles are renamed.
        from: Seq<u8>,
        /// The set that they become.
        to: Seq<u8>,
    },
    /// `derive N F A W r j B`: a step on a set, or on the last set of an open chain.
    Derive {
        /// The name that is bound.
        name: Seq<u8>,
        /// The set, or the open chain.
        base: Seq<u8>,
        /// The axis of the step.
        axis: Axis,
        /// The side on which a marker stands.
        side: Side,
        /// The radius of the step, at most 4.
        radius: u8,
        /// The number of the class of markers among those that are kept, from 0.
        class: usize,
        /// The trials that each search may take.
        budget: u64,
    },
    /// `search N S X W r L B`: the search for a looped chain.
    Search {
        /// The name that is bound.
        name: Seq<u8>,
        /// The set of level 0.
        set: Seq<u8>,
        /// The axes of the steps, in turn: 1 to 8 of them.
        axes: Seq<Axis>,
        /// The side on which a marker stands, in all steps.
        side: Side,
        /// The radius of all steps, at most 4.
        radius: u8,
        /// How many steps the chain may have: 1 to 32.
        levels: usize,
        /// The trials that each search of a window may take.
        budget: u64,
    },
    /// `cert C`: the text of a chain.
    Cert {
        /// The chain.
        chain: Seq<u8>,
    },
    /// `check N n`, and n lines: the chain of a certificate.
    Check {
        /// The name that is bound.
        name: Seq<u8>,
        /// The bytes of the n lines, each with its newline, whatever they hold.
        lines: Seq<u8>,
    },
    /// `upgrade N C`: the same chain in version two.
    Upgrade {
        /// The name that is bound.
        name: Seq<u8>,
        /// The chain.
        chain: Seq<u8>,
    },
    /// `lighten N C B`: the light chain of a chain.
    Lighten {
        /// The name that is bound.
        name: Seq<u8>,
        /// The chain.
        chain: Seq<u8>,
        /// The trials that each search of a window may take, and the nodes that each tree may have.
        budget: u64,
    },
    /// `expand N C w h`: a pattern over a looped chain.
    Expand {
        /// The name that is bound.
        name: Seq<u8>,
        /// The chain.
        chain: Seq<u8>,
        /// The width, in tiles: 1 to 1024.
        width: usize,
        /// The height, in tiles: 1 to 1024.
        height: usize,
    },
    /// `image C t`: the image of a tile by one turn of a loop.
    Image {
        /// The chain.
        chain: Seq<u8>,
        /// The tile.
        tile: u16,
    },
    /// `desub N C k P`: a pattern taken apart by a step.
    Desub {
        /// The name that is bound.
        name: Seq<u8>,
        /// The chain.
        chain: Seq<u8>,
        /// The number of the step, from 0.
        step: usize,
        /// The pattern.
        pattern: Seq<u8>,
    },
    /// `bound C x y`: the size past which a vector is no period.
    Bound {
        /// The chain.
        chain: Seq<u8>,
        /// How far the vector goes along axis 1, below 2^63 in length.
        dx: i64,
        /// How far it goes along axis 2, below 2^63 in length.
        dy: i64,
    },
    /// `primitive C`: the least power of a loop whose images hold every tile.
    Primitive {
        /// The chain.
        chain: Seq<u8>,
    },
    /// `seeds C q`: the squares of four tiles each of which is the opposite corner of its own image.
    Seeds {
        /// The chain.
        chain: Seq<u8>,
        /// The power, 1 to 64.
        power: u32,
    },
    /// `census C k t`: how often each tile comes in an image.
    Census {
        /// The chain.
        chain: Seq<u8>,
        /// The turns of the loop, at most 4096.
        turns: u32,
        /// The tile.
        tile: u16,
    },
    /// `draw P numbers` or `draw P boxes`: a drawing of a pattern.
    Draw {
        /// The pattern.
        pattern: Seq<u8>,
        /// How it is drawn.
        style: Style,
    },
    /// `json M`: a value as JSON.
    Json {
        /// The name of the value.
        value: Seq<u8>,
    },
    /// `torus N GA GB Ga Gb n`, and n regions: a partition.
    Torus {
        /// The name that is bound.
        name: Seq<u8>,
        /// The side of the box along axis 1.
        width: Golden,
        /// The side along axis 2.
        height: Golden,
        /// The move along axis 1. It may be no move of the box.
        move1: Golden,
        /// The move along axis 2.
        move2: Golden,
        /// The regions, at most 1024. Their half-planes may be none.
        regions: Seq<RawRegion>,
    },
    /// `code N T Gx Gy w h`: the code of a point.
    Code {
        /// The name that is bound.
        name: Seq<u8>,
        /// The partition.
        torus: Seq<u8>,
        /// The coordinate of the point along axis 1.
        x: Golden,
        /// The coordinate along axis 2.
        y: Golden,
        /// The width, in letters: 1 to 1024.
        width: usize,
        /// The height, in letters: 1 to 1024.
        height: usize,
    },
    /// `induce N T A`: the partition that is induced along an axis.
    Induce {
        /// The name that is bound.
        name: Seq<u8>,
        /// The partition.
        torus: Seq<u8>,
        /// The axis.
        axis: Axis,
    },
}

/// A command, and where it begins.
#[derive(Drop)]
pub struct Command {
    /// The number of the line that holds its word, counted from 1.
    pub line: usize,
    /// The command.
    pub word: Word,
}
