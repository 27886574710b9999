//! The nodes of a graph of candidates in an order in which each comes after those to which its edges lead. So
//! what is known of a node by what is known behind its edges is found in one pass.
#![tactic(auto)]

mod order;

pub use order::{Order, Turn};
