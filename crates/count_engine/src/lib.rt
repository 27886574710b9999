//! The count engine: the candidates that pass a sieve of prefixes are counted, each worker's own first, and
//! then together.
#![tactic(auto)]

mod depth;
mod mining;

pub use mining::mine;
