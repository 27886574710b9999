//! The candidates of the sequences of a part, each sequence's as a graph: a node is where the paths of a
//! prefix stand, and the lists of ranks from the first node on are those of the patterns of the sequence
//! within the part's bound.
#![tactic(auto)]

mod candidates;
mod expanding;
mod laws;
mod starts;
mod terrain;

pub use candidates::Candidates;
pub use laws::{edges_end_or_lead_on, edges_tell_what_follows, whole_graphs_accept_the_patterns};
