//! One run of the command: words and files in, the answer or one message out.
#![tactic(auto)]

mod attempts;
mod checking;
mod inputs;
mod jobs;
mod laws;
mod merging;
mod messages;
mod proving;
mod rows;
mod running;
mod shares;
mod sources;

pub use laws::{
    a_checked_proof_shows_its_rows, a_share_finds_its_part_of_the_answer,
    a_written_proof_passes_its_check, an_accepted_input_has_an_answer, at_most_one_first_refusal,
    at_most_one_text, made_output_is_the_summary, the_outputs_of_all_shares_merge_to_the_answer,
};
pub use running::run;
