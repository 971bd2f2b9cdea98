//! Half-planes and regions over the golden numbers: which points they hold, and where they have none in common. All is
//! decided by signs of whole golden numbers, in 128 bits.
#![tactic(auto)]

mod apart;
mod plane;
mod point;
mod region;
#[cfg(test)]
mod tests;

pub use apart::clash;
pub use plane::{HalfPlane, PlaneFault};
pub use point::Point;
pub use region::{Region, clash_with, clip, contains, reduce};
