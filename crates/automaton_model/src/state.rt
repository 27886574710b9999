//! States of automata over ranks.

/// An edge: its rank, and the number of the state to which it leads.
#[derive(Clone, Copy, Debug, PartialEq, Eq, Hash)]
pub struct Edge {
    pub rank: u32,
    pub to: u32,
}

/// A state: whether a list of ranks may end there, and its edges.
#[derive(Debug, PartialEq, Eq, Hash, Drop)]
pub struct State {
    pub accepts: bool,
    pub edges: Vec<Edge>,
}
