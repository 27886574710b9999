//! What is used again for each graph.

use super::asked::Asked;
use super::numbers::Numbers;
use super::states::Made;
use automaton_model::State;
use graph_order::Order;
use std::alloc::Global;

/// Room for the work on one graph, cleared and used again for the next.
#[derive(Drop)]
pub struct Room {
    // The nodes, each after those to which its edges lead.
    pub(crate) order: Order,
    // By number of a node, its states.
    pub(crate) made: Vec<Made>,
    // By number of a node, the stages at which it is asked for.
    pub(crate) asked: Vec<Asked>,
    // By number of a node, its states at these.
    pub(crate) numbers: Vec<Numbers>,
    // The state that is looked up.
    pub(crate) state: State,
}

impl Room {
    /// Takes no memory.
    pub fn new(alloc: Global) -> Room {
        Room {
            order: Order::new(alloc),
            made: Vec::new(alloc),
            asked: Vec::new(alloc),
            numbers: Vec::new(alloc),
            state: State {
                accepts: false,
                edges: Vec::new(alloc),
            },
        }
    }
}
