//! Proofs of an answer, and their check. A proof has, below each row of the answer, for each sequence that
//! supports it a path of the expression that shows it.
#![tactic(auto)]

mod bits;
mod checking;
mod fault;
mod finding;
mod laws;
mod lines;
mod listing;
mod numbers;
mod open_row;
mod ordering;
mod proof_writer;
mod putting;
mod reading;
mod search;

pub use checking::checks;
pub use fault::ProofFault;
pub use finding::path;
pub use laws::{
    a_good_proof_is_not_refused, a_good_proof_proves, an_unrefused_proof_is_good,
    at_most_one_proof_refusal, names_in_files_are_names_of_files, the_answer_has_a_good_proof,
};
pub use proof_writer::ProofWriter;
pub use reading::read_proof;
