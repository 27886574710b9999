//! The walk of a prefix through the places of sequences: what the paths that stand there write next.
#![tactic(auto)]

mod grouping;
mod joining;
mod laws;
mod stand;
mod stands;
mod stepping;
mod touching;
mod visit;
mod visits;
mod walking;

pub use laws::{no_visit_lies_behind_a_wall, visits_are_those_of_each_stand};
pub use stand::Stand;
pub use stands::{Stands, code_of, fits};
pub use visit::Visit;
pub use visits::Visits;
pub use walking::walk_some;
