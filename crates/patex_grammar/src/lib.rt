//! What is proved of the grammar of expressions: a machine that reads tokens from left to right reads what
//! the grammar says, and a text reads as at most one tree.
#![tactic(auto)]

mod laws;

pub use laws::{
    at_most_one_expression_refusal, at_most_one_list_of_tokens, at_most_one_reading,
    at_most_one_tree,
};
