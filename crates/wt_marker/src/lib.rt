//! Markers: the classes of tiles that tables of dominoes make, and the good step that is derived from one
//! of them.
#![tactic(auto)]

mod classes;
mod coarse;
mod derive;
mod end;
mod forest;
mod images;
mod laws;
mod listing;
mod marks;
mod pushes;
#[cfg(test)]
mod tests;

pub use classes::marker_classes;
pub use derive::derive_step;
pub use end::DeriveEnd;
pub use laws::{
    classes_are_kept, coarse_tiles_tell_edges, derived_pairs_are_surroundable,
    derived_steps_are_good, derived_steps_are_small, listed_classes_make_plans,
    refuted_pairs_have_empty_windows,
};
