//! The rows of groups: a search by prefixes over the states of their automata.
#![tactic(auto)]

mod automata;
mod decoded;
mod laws;
mod loads;
mod searching;
mod stack;
mod step;

pub use automata::Automata;
pub use laws::{
    groups_are_searched, loaded_rows_are_group_rows, pivot_codes_are_searched, registries_are_trim,
};
pub use loads::LoadedState;
pub use searching::{rows, rows_of};
