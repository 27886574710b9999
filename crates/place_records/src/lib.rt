//! What stands at the places of a part, made of its grids: the records that a walk reads one at a place, the
//! moves that they name, and what may be written there.
#![tactic(auto)]

mod block;
mod blocks;
mod filling;
mod joining;
mod making;
mod moves;
mod part_records;
mod rank_sets;
mod rank_table;
mod twin;
mod twins;
mod whole;

pub use making::records;
pub use part_records::Records;
pub use rank_table::RankTable;
pub use whole::{records_of_all, records_of_all_alone};
