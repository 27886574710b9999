//! Proofs of an answer over names, in which no number of a name and no transducer stands. The code judges
//! them by the numbers of names; that both say the same are the laws of this crate.
#![tactic(auto)]

mod laws;

pub use laws::{
    a_good_proof_by_names_is_not_refused, a_good_proof_by_names_proves,
    a_proof_by_numbers_is_a_proof_by_names, at_most_one_named_refusal, at_most_one_number_of_rows,
    each_answer_has_a_proof, good_by_numbers_is_good_by_names,
    paths_by_names_write_what_is_generated, refused_by_numbers_is_refused_by_names,
    the_answer_by_names_has_a_good_proof,
};
