//! Chains of steps: good ones, open or closed to a loop.
#![tactic(auto)]

mod accepted;
mod chain;
mod copy;
mod faults;
mod growth;
mod laws;
mod push;
mod raw;
mod sets;
#[cfg(test)]
mod tests;
mod version;

pub use accepted::{Accepted, upgrade};
pub use chain::Chain;
pub use faults::{chain_fault, steps_from};
pub use growth::{image_of, is_along, origin, origins};
pub use laws::good_chains;
pub use push::PushFault;
pub use raw::{End, RawChain, Refusal, Version};
pub use sets::{coarse_set, fine_set, first_count, same_set};
