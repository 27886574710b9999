//! The meaning of the miner: the types that its crates pass to each other, and in `specs/` the definitions
//! that every contract of the workspace cites. `docs/DEFINITIONS.md` leads through them.
#![tactic(auto)]

mod database;
mod draws;
mod expression;
mod fault;
mod frequency_laws;
mod gate;
mod hierarchy;
mod item;
mod laws;
mod memory;
mod mined;
mod patterns;
mod ranks;
mod row;

pub use database::Db;
pub use draws::next_state;
pub use expression::{Expr, Leaf};
pub use fault::{Fault, Which};
pub use frequency_laws::{
    frequent_items_suffice, pattern_stands_above_its_sequence, support_is_at_most_a_frequency,
};
pub use gate::{Gate, OpenGate};
pub use hierarchy::Hierarchy;
pub use item::{Item, Name, Pattern};
pub use laws::{
    at_most_one_answer, at_most_one_partition_work, at_most_one_search_work, at_most_one_support,
    at_most_one_work,
};
pub use memory::NoMemory;
pub use mined::{Mined, Work};
pub use patterns::pattern_of;
pub use ranks::Ranks;
pub use row::Row;
