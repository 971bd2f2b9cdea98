//! A box that is turned along both axes, and its labelled regions.
ghost use Rattle.std.specs.Prelude.{◌≡◌, ◌^◌, true};
ghost use Rattle.wt_golden.specs.Sizes.{IsBelow};
ghost use Rattle.wt_golden.specs.Wide.{number};
ghost use Rattle.wt_golden.specs.Whole.{whole, minus, times};
ghost use Rattle.wt_golden.specs.Fractions.{IsGolden};
ghost use Rattle.wt_golden.specs.Fractions as fractions;
ghost use Rattle.wt_torus.specs.Boxes.{is_rotation, rotation};
ghost use Rattle.wt_torus.specs.Boxes as boxes;
ghost use Rattle.wt_grid.specs.Answers.{GivesWhere};

use crate::sign::is_positive;
use std::marker::Model;
use wt_golden::{Golden, Wide};
use wt_plane::Region;
use wt_seq::Seq;

/// A move isn't above 0 and below the side of its axis.
#[derive(Clone, Copy, Debug, PartialEq, Eq, Drop)]
pub struct TorusFault;

/// A box with a move along each axis, above 0 and below the box's side.
#[derive(Clone, Copy, Debug)]
pub struct Torus {
    width: Golden,
    height: Golden,
    move1: Golden,
    move2: Golden,
}

impl Model for Torus {
    ghost use Rattle.std.specs.Prelude.{◌≡◌, true};
    ghost use Rattle.wt_torus.specs.Boxes.{Rotation, is_rotation};

    ghost Value = { Rotation };

    ghost view = { λ t. record { width = t.width; height = t.height; move1 = t.move1; move2 = t.move2 } };

    ghost invariant = { λ t. is_rotation (record { width = t.width; height = t.height; move1 = t.move1; move2 = t.move2 }) ≡ true };

    ghost inverse = { λ r. record { width = r.width; height = r.height; move1 = r.move1; move2 = r.move2 } };
}

// f d - x e, where e is f's denominator
fn left_over(x: Wide, d: Wide, f: Wide, e: Wide) -> Wide
    requires x { IsBelow (number x) (2 ^ 30) }
    requires d { IsBelow (number d) (2 ^ 30) }
    requires f { IsBelow (number f) (2 ^ 30) }
    requires e { IsBelow (number e) (2 ^ 30) }
    ensures value { number result ≡ minus (times (number f) (number d)) (times (number x) (number e)) }
    ensures small { IsBelow (number result) (2 ^ 63) }
{
    f.times(d).minus(x.times(e))
}

/// Whether x / d is below f.
pub(crate) fn is_below(x: Wide, d: Wide, f: Golden) -> bool
    requires x { IsBelow (number x) (2 ^ 30) }
    requires d { IsBelow (number d) (2 ^ 30) }
    requires whole { number d ≡ whole (number d).a }
    ensures { result ≡ boxes.is_below (number x) (number d).a f }
{
    is_positive(left_over(x, d, f.top(), f.bottom()))
}

// Whether x / d is above 0 and below f.
pub(crate) fn is_between(x: Wide, d: Wide, f: Golden) -> bool
    requires x { IsBelow (number x) (2 ^ 30) }
    requires d { IsBelow (number d) (2 ^ 30) }
    requires whole { number d ≡ whole (number d).a }
    ensures { result ≡ boxes.is_between (number x) (number d).a f }
{
    is_positive(x) && is_below(x, d, f)
}

// Whether the move is above 0 and below the length.
fn is_move(step: Golden, length: Golden) -> bool
    ensures { result ≡ boxes.is_between (fractions.top step) step.d length }
{
    is_between(step.top(), step.bottom(), length)
}

impl Torus {
    /// The box with these sides and moves, refused exactly where a move isn't above 0 and below its side. Takes
    /// no memory.
    pub fn new(
        width: Golden,
        height: Golden,
        move1: Golden,
        move2: Golden,
    ) -> Result<Torus, TorusFault>
        ensures { GivesWhere result (rotation width height move1 move2) is_rotation }
    {
        let inside = is_move(move1, width) && is_move(move2, height);
        if inside {
            Ok(Torus {
                width,
                height,
                move1,
                move2,
            })
        } else {
            Err(TorusFault)
        }
    }

    /// Does nothing; its clauses say what every torus is.
    pub fn torus(&self)
        ensures rotation { is_rotation self.now ≡ true }
        ensures width { IsGolden self.now.width }
        ensures height { IsGolden self.now.height }
        ensures move1 { IsGolden self.now.move1 }
        ensures move2 { IsGolden self.now.move2 }
    {
        self.width.golden();
        self.height.golden();
        self.move1.golden();
        self.move2.golden();
    }

    /// The side along axis 1.
    pub fn width(&self) -> Golden
        ensures { result ≡ self.now.width }
    {
        self.width
    }

    /// The side along axis 2.
    pub fn height(&self) -> Golden
        ensures { result ≡ self.now.height }
    {
        self.height
    }

    /// The move along axis 1.
    pub fn move1(&self) -> Golden
        ensures { result ≡ self.now.move1 }
    {
        self.move1
    }

    /// The move along axis 2.
    pub fn move2(&self) -> Golden
        ensures { result ≡ self.now.move2 }
    {
        self.move2
    }
}

/// The greatest number of half-planes of a region, in a text or behind an induction.
pub const MAX_PLANES: usize = 64;

/// The greatest number of regions of a partition, in a text or behind an induction.
pub const MAX_REGIONS: usize = 1024;

/// A region and the label of its points.
#[derive(Drop)]
pub struct Labelled {
    /// The label, the number of a letter.
    pub label: u16,
    /// Where the label holds.
    pub region: Region,
}

/// A torus, and regions of it with labels.
#[derive(Drop)]
pub struct Partition {
    pub torus: Torus,
    pub regions: Seq<Labelled>,
}
