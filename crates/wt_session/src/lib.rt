//! Scripts: a session binds names to tile sets, patterns, chains and partitions, and answers the commands of a script one after the other.
#![tactic(auto)]

mod answers;
mod colours;
mod json;
mod json_chains;
mod json_partitions;
mod json_patterns;
mod json_sets;
mod laws;
mod levels;
mod limits;
mod lookup;
mod names;
mod nodes;
mod partitions;
mod reply;
mod rows;
mod script;
mod session;
mod spent;
mod subject;
#[cfg(test)]
mod tests;
mod texts;
mod torus_text;
mod value;
mod words;

pub use laws::{bound_names_are_found, enough_budgets, replies_are_one, replies_exist};
pub use levels::end_fault;
pub use partitions::{PartitionFault, partition};
pub use reply::CommandFault;
pub use script::run_all;
pub use session::Session;
pub use texts::{
    coarse_lines, not_valid_line, past_line, repeated_line, stranger_line, syntax_line,
};
pub use torus_text::{TorusTextFault, read_torus};
pub use wt_script::{Command, Style, Word, parse_script};
