//! Words and laws on names that are numbered by their first coming, with no code.
#![tactic(auto)]
