// Chains as they are read, and what is wrong with one.
use wt_seq::Seq;
use wt_step::{RawLink, StepFault};

/// The version of a certificate.
#[derive(Clone, Copy, Debug, PartialEq, Eq)]
pub enum Version {
    /// No tree cites, each refutation has its step's radius, and no step restricts.
    One,
    /// All of this may be.
    Two,
}

/// How a chain ends.
#[derive(Drop)]
pub enum End {
    /// With its last set.
    Open,
    /// In a loop, from the last set back to that of an earlier level.
    Loop {
        /// The level that the loop leads back to: the number of the step that takes its set apart, from 0.
        start: u16,
        /// For each tile of the last set its partner in the set of level `start`.
        renaming: Seq<u16>,
        /// After this many turns of the loop, from 1 to 256 in a text, the image of each tile of level `start` is
        /// at least two cells wide and two high.
        expansion: u32,
    },
}

/// A chain as it is read. Nothing is known of it.
#[derive(Drop)]
pub struct RawChain {
    /// The version of its text.
    pub version: Version,
    /// The steps, from the first set on: 1 to 32 in a good chain.
    pub steps: Seq<RawLink>,
    /// What comes after the last step.
    pub end: End,
}

/// The first failing condition of a chain, in the order in which they are tested.
#[derive(Clone, Copy, Debug, PartialEq, Eq)]
pub enum Refusal {
    /// There is no step.
    Empty,
    /// There are more than 32 steps.
    TooManySteps,
    /// Version one, and a tree that cites, a refutation of another radius than its step's, or a restrict step.
    Version,
    /// A step that isn't good.
    Step {
        /// The step's number, from 0.
        step: usize,
        /// Its first failing condition.
        fault: StepFault,
    },
    /// A step that doesn't take apart the coarse set of the step before it, colours and names included.
    NotNext {
        /// The step's number, from 1.
        step: usize,
    },
    /// The loop leads back to a level that no step takes apart.
    Start,
    /// The renaming isn't one from the last set onto that of level `start`.
    Renaming {
        /// Where the list and the two sets differ in length, the least of the three lengths; else the first
        /// place whose number spoils the list.
        tile: u16,
    },
    /// An image that is less than two cells wide or high after the turns of the loop that are stated.
    Expansion {
        /// The first such tile of level `start`.
        tile: u16,
    },
}
