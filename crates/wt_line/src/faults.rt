// What can be wrong with a text.
ghost use Rattle.std.specs.Prelude.{◌≡◌};
ghost use Rattle.wt_line.specs.declared.faults.LineFault.TheVariants.{Past};
ghost use Rattle.wt_line.specs.declared.faults.LineFault.TheVariants as line_fault;
ghost use Rattle.wt_line.specs.declared.faults.TextFault.TheVariants as text_fault;
ghost use Rattle.wt_line.specs.Faults.{at_line};
ghost use Rattle.wt_line.specs.Limits.{limit_word};

use std::alloc::{AllocError, AllocFailed};

/// The limits, by the words that name them in a refusal.
#[derive(Clone, Copy, Debug, PartialEq, Eq)]
pub enum What {
    /// The steps of a chain, or the levels of a search.
    Steps,
    /// A radius.
    Radius,
    /// The tiles of a set, images or labels.
    Tiles,
    /// The pairs of a list.
    Pairs,
    /// The nodes of all trees of a text.
    Nodes,
    /// The depth of a tree.
    Depth,
    /// The expansion of a loop.
    Expansion,
    /// Any other number.
    Number,
    /// The width of a pattern.
    Width,
    /// The height of a pattern.
    Height,
    /// A power of seeds.
    Power,
    /// The turns of a census.
    Turns,
    /// The regions of a partition.
    Regions,
    /// The half-planes of a region.
    Planes,
    /// A golden number.
    Golden,
    /// The rows of a strip.
    Rows,
}

impl What {
    /// The word of the limit, as a refusal prints it.
    pub fn as_str(self) -> &'static str
        ensures { result.now ≡ limit_word self }
    {
        match self {
            What::Steps => "steps",
            What::Radius => "radius",
            What::Tiles => "tiles",
            What::Pairs => "pairs",
            What::Nodes => "nodes",
            What::Depth => "depth",
            What::Expansion => "expansion",
            What::Number => "number",
            What::Width => "width",
            What::Height => "height",
            What::Power => "power",
            What::Turns => "turns",
            What::Regions => "regions",
            What::Planes => "planes",
            What::Golden => "golden",
            What::Rows => "rows",
        }
    }
}

/// What is wrong with a line, whatever its number.
#[derive(Clone, Copy, Debug, PartialEq, Eq)]
pub enum LineFault {
    /// It is malformed.
    Wrong,
    /// It has a right form, and this is the first limit that it passes, from left to right.
    Past(What),
    /// Out of memory.
    OutOfMemory,
}

/// What is wrong with a text: its first line that is malformed or passes a limit.
#[derive(Clone, Copy, Debug, PartialEq, Eq)]
pub enum TextFault {
    /// The line of this number is malformed where it stands.
    Syntax {
        /// The number of the line, counted from 1.
        line: usize,
    },
    /// The line of this number is right, but a quantity of it passes its limit.
    Limit {
        /// The limit that is passed first.
        what: What,
        /// The number of the line, counted from 1.
        line: usize,
    },
    /// Out of memory.
    OutOfMemory,
}

impl From<What> for LineFault {
    ghost from_gives = { λ what e. e ≡ Past what };

    fn from(what: What) -> Self {
        LineFault::Past(what)
    }
}

/// What is wrong with a line, at its number.
pub fn placed<A: Drop>(read: Result<A, LineFault>, line: usize) -> Result<A, TextFault>
    ensures { result ≡ at_line line read }
{
    match read {
        Ok(value) => Ok(value),
        Err(LineFault::Wrong) => Err(TextFault::Syntax { line }),
        Err(LineFault::Past(what)) => Err(TextFault::Limit { what, line }),
        Err(LineFault::OutOfMemory) => Err(TextFault::OutOfMemory),
    }
}

impl<T: Drop> From<AllocFailed<T>> for TextFault {
    ghost from_gives = { λ _ e. e ≡ text_fault.OutOfMemory };

    fn from(_: AllocFailed<T>) -> Self {
        TextFault::OutOfMemory
    }
}

impl<T: Drop> From<AllocFailed<T>> for LineFault {
    ghost from_gives = { λ _ e. e ≡ line_fault.OutOfMemory };

    fn from(_: AllocFailed<T>) -> Self {
        LineFault::OutOfMemory
    }
}

impl From<AllocError> for LineFault {
    ghost from_gives = { λ _ e. e ≡ line_fault.OutOfMemory };

    fn from(_: AllocError) -> Self {
        LineFault::OutOfMemory
    }
}

impl From<AllocError> for TextFault {
    ghost from_gives = { λ _ e. e ≡ text_fault.OutOfMemory };

    fn from(_: AllocError) -> Self {
        TextFault::OutOfMemory
    }
}
