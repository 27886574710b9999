//! Growth of prefixes: what each node of the search tree stands for, and the nodes that it grows into.
#![tactic(auto)]

mod growing;
mod node;
mod seeds;
mod state;

pub use growing::expand;
pub use node::Node;
pub use seeds::{roots, whole_roots, whole_roots_alone};
