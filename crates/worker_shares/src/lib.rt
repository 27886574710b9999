//! Which sequences of a job each of several workers goes over.
#![tactic(auto)]

mod numbers;

pub use numbers::{numbers_of, worker_numbers};
