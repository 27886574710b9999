//! Sets of states of a transducer, as bits in words.
#![tactic(auto)]

mod rows;
mod state_iter;
mod state_set;
mod words;

pub use rows::neighbours;
pub use state_iter::StateIter;
pub use state_set::StateSet;
