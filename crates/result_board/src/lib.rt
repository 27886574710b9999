//! The board of a search: the labels that its workers post, each with its row.
#![tactic(auto)]

mod board;
mod post;

pub use board::Board;
pub use post::Post;
