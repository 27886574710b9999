//! The candidates that pass a sieve of prefixes, counted by lists of ranks. The sieve lets all candidates
//! through that are frequent, and few others, so their sums have room where those of all would have none.
#![tactic(auto)]

mod counting;
mod edges;
mod fronts;
mod laws;

pub use counting::{Room, count};
pub use laws::{
    frequent_patterns_are_counted, joined_shares_are_counted, nothing_is_counted_of_no_sequences,
    one_more_sequence_is_counted, sums_are_counted_or_none,
};
