//! Minimal automata of finite sets of lists of ranks, their codes, and what is counted where sequences with
//! equal ones are counted together.
#![tactic(auto)]

mod automaton;
mod coding;
mod groups;
mod laws;
mod registry;
mod state;

pub use automaton::Automaton;
pub use coding::code_from;
pub use groups::{Group, groups_of};
pub use laws::{
    a_registry_grows, at_most_one_candidate_set_work, counting_groups_is_counting_sequences,
    each_finite_set_has_a_code, equal_codes_have_equal_sets, equal_states_are_one,
    groups_are_the_work, light_prefixes_have_no_rows, loads_go_along_edges,
    merged_codes_are_the_groups_of_the_sequences, rows_of_groups_are_the_frequent_patterns,
    rows_of_pivots_are_the_answer, sets_have_one_code, the_walk_numbers_the_minimal_automaton,
    worked_codes,
};
pub use registry::Registry;
pub use state::{Edge, State};
