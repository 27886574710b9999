//! Laws of what there is: an answer, and a tree. Each is the contract of a function that does nothing.
#![tactic(auto)]

mod laws;

pub use laws::{accepted_expression_reads_as_a_tree, each_data_has_an_answer};
