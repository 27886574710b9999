//! What is used again for each sequence.

use graph_order::Order;
use std::alloc::Global;

/// A worker's room for the sums over one graph, used again for the next.
#[derive(Drop)]
pub struct Room {
    // The nodes, each after those to which its edges lead.
    pub(crate) order: Order,
    // By number of a node, what is told of the lists that are accepted from it.
    pub(crate) sums: Vec<u64>,
}

impl Room {
    /// Takes no memory.
    pub fn new(alloc: Global) -> Room {
        Room {
            order: Order::new(alloc),
            sums: Vec::new(alloc),
        }
    }
}
