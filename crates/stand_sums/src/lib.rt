//! What may follow a prefix, from the visits of a walk: for each rank what the sequences weigh in which it
//! can follow, and the stands of the prefix with it. Visits come in batches of whole sequences, and each is
//! read twice: to be counted, and, once it is known how many stands each rank has, to be filed.
#![tactic(auto)]

mod aim;
mod counting;
mod files;
mod filing;
mod laws;
mod next_rank;
mod outputs;
mod reaching;
mod run;
mod sequences;
mod shelf;
mod sum;
mod sums;

pub use aim::Aim;
pub use files::Files;
pub use laws::{
    stands_of_visits_can_be_walked, visits_behind_stands_are_those_behind_each,
    visits_of_groups_are_sequences,
};
pub use next_rank::NextRank;
pub use outputs::Outputs;
pub use run::Run;
pub use sums::Sums;
