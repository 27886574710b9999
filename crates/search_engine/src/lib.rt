//! The search engine: it walks the search tree of a job, and its rows are the frequent patterns.
#![tactic(auto)]

mod choices;
mod crew;
mod division;
mod laws;
mod mining;
mod search;
mod seats;
mod simulating;
mod steer;
mod worker;
mod workers;
mod working;

pub use crew::Crew;
pub use division::Division;
pub use laws::rows_of_the_trees_of_pivots_are_the_frequent_patterns;
pub use mining::{mine, mine_parts};
pub use simulating::simulate;
pub use steer::Steer;
pub use worker::Worker;
pub use workers::posted;
pub use working::work;
