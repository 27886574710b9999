//! The candidates of a job that pass its sieve, counted by all workers.
#![tactic(auto)]

mod counting;
mod laws;
mod share;

pub use counting::counts_of;
pub use laws::{graphs_lead_to_candidates, nothing_is_counted_where_no_item_is_frequent};
