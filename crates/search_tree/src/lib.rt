//! The tree that a search by prefixes walks: what it is, that a search covers it, and the trait by which it
//! is grown.
#![tactic(auto)]

mod cover_laws;
mod grow;
mod label;
mod search_laws;

pub use cover_laws::{at_most_one_cover, cover_is_the_tree, short_tree_has_a_cover};
pub use grow::Grow;
pub use label::{Grown, Label};
pub use search_laws::{
    at_most_one_search_tree, each_pattern_has_one_pivot, prefixes_of_alive_prefixes_are_alive,
    rows_of_the_search_tree_are_the_frequent_patterns, search_tree_has_a_cover,
    work_by_ranks_is_work_by_items,
};
