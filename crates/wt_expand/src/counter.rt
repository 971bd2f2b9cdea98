// The levels of a counter of rows, and what their tiles stand for.
ghost use Rattle.std.specs.Prelude.{◌≡◌, ◌+◌, ◌*◌, ◌<◌, ◌≤◌, length, slice_get, Some, true};
ghost use Rattle.std.specs.Bool.{MatchBool};
ghost use Rattle.wt_grid.specs.declared.axis.Axis.TheVariants.{One, Two};
ghost use Rattle.wt_morphism.specs.Images as images;
ghost use Rattle.wt_chain.specs.Growth as growth;
ghost use Rattle.wt_chain.specs.Tables as tables;
ghost use Rattle.wt_chain.specs.Turns.{axis_of};
ghost use Rattle.wt_expand.specs.declared.limits.TheConstants.{MAX_STEPS, MAX_TURNS, MAX_BLOCK};
ghost use Rattle.wt_expand.specs.Blocks.{are_below};
ghost use Rattle.wt_grid.specs.declared.limits.TheConstants as limits;

use crate::limits::MAX_LEVELS;
use wt_chain::image_of;
use wt_grid::MAX_TILES;
use wt_morphism::Image;
use wt_step::RawLink;
use wt_tile::Axis;

/// A counter whose values are the rows below tile 0, by their numbers from the bottom. It has a digit for
/// each level of a pick: for the steps before the loop, and then for n turns of the loop. Its digits
/// lie in lent space, a block for each.
#[derive(Drop)]
pub struct Counter<'a> {
    /// The steps of the chain.
    pub steps: &'a [RawLink],
    /// How many steps come before the loop.
    pub start: usize,
    /// How often the loop is turned.
    pub turns: usize,
    /// The loop's renaming: tile i of the last set is carried onto this tile of the loop's first set.
    pub renaming: &'a [u16],
    /// For each tile the one that is carried onto it.
    pub origins: [u16; MAX_TILES],
    /// How many numbers a level's block has.
    pub block: usize,
    pub ghost names: { origins ≡ tables.entries_of (growth.origin renaming.now) },
    pub ghost small: { are_below limits.MAX_TILES renaming.now ≡ true },
    pub ghost inside: { start < length steps.now },
    pub ghost few: { length steps.now ≤ MAX_STEPS },
    pub ghost short: { turns ≤ MAX_TURNS },
    pub ghost thin: { block ≤ MAX_BLOCK },
}

/// A step whose images are taken, and whether tiles are renamed back before that.
#[derive(Clone, Copy, Drop)]
pub struct LevelRef<'a> {
    /// The step.
    pub link: &'a RawLink,
    /// Whether tiles are renamed back first.
    pub renames: bool,
}

impl<'a> Counter<'a> {
    ghost use Rattle.wt_expand.specs.LaidRows as laid_rows;
    ghost use Rattle.wt_expand.specs.Blocks.{name_in, piece_under};
    ghost use Rattle.wt_expand.specs.Counters.{counter_levels, level_of};

    /// How many levels there are.
    pub fn count(&self) -> usize
        ensures value { result ≡ length (counter_levels self.now) }
        ensures few { result ≤ MAX_LEVELS }
    {
        self.start + self.turns * (self.steps.len() - self.start)
    }

    /// Level i from the bottom.
    pub fn level(&self, i: usize) -> LevelRef<'_>
        requires { i < length (counter_levels self.now) }
        ensures { slice_get (counter_levels self.now) i ≡ Some (level_of result) }
    {
        if i < self.start {
            return LevelRef {
                link: &self.steps[i],
                renames: false,
            };
        }
        let turned = self.steps.len() - self.start;
        let k = (i - self.start) % turned;
        LevelRef {
            link: &self.steps[self.start + k],
            renames: k + 1 == turned,
        }
    }

    /// Where block i begins.
    pub fn place(&self, i: usize) -> usize
        requires { i ≤ length (counter_levels self.now) }
        ensures { result ≡ i * self.now.block }
    {
        i * self.block
    }

    /// The tile that is carried onto this one.
    fn origin(&self, tile: u16) -> u16
        ensures { result ≡ growth.origin self.now.renaming.now tile }
    {
        let t = usize::from(tile);
        if t < 256 { self.origins[t] } else { 0 }
    }

    /// A tile's name in the set above the step.
    fn name(&self, level: LevelRef<'_>, tile: u16) -> u16
        ensures { result ≡ name_in self.now.renaming.now (level_of level.entry) tile }
    {
        if level.renames {
            self.origin(tile)
        } else {
            tile
        }
    }

    /// What a tile of the row above stands for.
    #[tactic(auto, using(wt_chain::proofs::Turned::piece_is))]
    pub fn piece(&self, level: LevelRef<'_>, tile: u16) -> Image
        ensures { images.piece result ≡ piece_under self.now.renaming.now (level_of level.entry) tile }
    {
        image_of(level.link, self.name(level, tile))
    }

    /// Whether a row above stands for two rows.
    pub fn has_two(&self, level: LevelRef<'_>, above: &[u16]) -> bool
        ensures { result ≡ laid_rows.has_two self.now.renaming.now (level_of level.entry) above.now }
    {
        let [tile, ..] = above else {
            return false;
        };
        if lies_in_rows(level.link) {
            return false;
        }
        match self.piece(level, *tile) {
            Image::One(_) => false,
            Image::Two(_, _) => true,
        }
    }
}

/// Whether a row stands for one row, with all pieces in it: the pieces lie along axis 1.
pub fn lies_in_rows(link: &RawLink) -> bool
    ensures { MatchBool result (axis_of link.now ≡ One) (axis_of link.now ≡ Two) }
{
    match link {
        RawLink::Marker(step) => match step.axis {
            Axis::One => true,
            Axis::Two => false,
        },
        RawLink::Restrict(_) => true,
    }
}
