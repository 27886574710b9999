//! The engine over candidate automata: the candidates of each sequence with a pivot as a minimal automaton,
//! equal automata counted once, and the rows found in these.
#![tactic(auto)]

mod alone;
mod building;
mod grouping;
mod loads;
mod mining;
mod parts;
mod searching;
mod working;

pub use building::build;
pub use grouping::groups_of;
pub use mining::mine;
pub use searching::rows;
