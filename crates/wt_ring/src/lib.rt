//! Equations of commutative rings, decided by computing. This crate has no code, only lemmas: `proofs/Ring.antt` proves
//! that two terms over the same numbers are equal where the polynomial of their difference has no coefficient but 0.
//! Golden numbers, half-planes and rotations rest on it, since the arithmetic tactics don't multiply out.
#![tactic(auto)]
