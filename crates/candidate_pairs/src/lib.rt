//! How many candidates a sequence has. They are not listed: a graph of candidates has one path for each, and
//! the paths are counted by a sum for each node, node by node, each after those to which its edges lead.
//! Several workers tell so how many there are of all sequences of a job together.
#![tactic(auto)]

mod counting;
mod laws;
mod paths;
mod room;
mod share;
mod sums;
mod telling;

pub use counting::count_candidates;
pub use laws::paths_are_counted_edge_by_edge;
pub use room::Room;
pub use telling::pairs_of;
