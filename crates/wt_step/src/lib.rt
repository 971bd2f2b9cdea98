//! Good steps: what makes a marker step or a restrict step good, with the first fault of one that is not; what
//! each does to a valid rectangle, as laws; and `desubstitute`, which takes a pattern apart. Worked rows stand
//! in wt_program's tests, and a small good step is worked out as theorems in `proofs/Examples.antt`.
#![tactic(auto)]

mod apart;
mod blocks;
mod borrowed;
mod carry;
mod cells;
mod coarse;
mod copy;
mod desub;
mod good;
mod index;
mod joins;
mod keep;
mod laws;
mod lines;
mod link;
mod marked;
mod order;
mod raw;
mod restrict;
mod rules;
mod search;
mod shape;
mod step;
mod walk;

pub use borrowed::RestrictRef;
pub use carry::{carry_period, has_room};
pub use coarse::{Coarse, DesubFault};
pub use copy::copy_link;
pub use desub::{desubstitute, desubstitute_valid};
pub use good::{Step, StepRef, accept_step};
pub use laws::{
    cores_are_plain, cuts_are_the_border_lines, desubstitutes, good_links, good_restricts,
    good_steps, periods_are_carried, restricts,
};
pub use link::{Link, LinkRef, accept_link, link_fault};
pub use raw::{Lost, RawLink, RawRestrict, RawStep, StepFault};
pub use step::step_fault;
