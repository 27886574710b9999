//! The candidates of one sequence as a deterministic graph. A node is the set of stands of a prefix, under a
//! number of its own; it has one edge for each rank that can be written next, to the node of the prefix with
//! that rank. So each candidate has exactly one path. Nodes get their edges when they are first asked for.
#![tactic(auto)]

mod edge;
mod expanding;
mod finding;
mod graph;
mod laws;
mod nodes;
mod rooms;
mod span;
mod words;

pub use edge::Edge;
pub use graph::Graph;
pub use laws::{
    candidates_are_the_paths, equal_stands_are_one_node, places_rise_along_edges,
    ranks_are_written_edge_by_edge, ranks_have_one_edge,
};
