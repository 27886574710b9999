//! The words of a command, read by `clap` as one simple command, and the rules beyond clap's.
#![tactic(auto)]

mod laws;
mod number;
mod options;
mod share;
mod words;

pub use laws::{
    a_merge_stands_alone, a_proof_is_of_a_file, a_repeated_option_is_usage,
    a_rule_is_in_its_ranges, at_most_one_command, check_words_say, help_is_usage,
    made_input_names_no_file, merge_words_say, options_may_stand_anywhere, plain_words_say,
    proof_words_say, usage_says_no_command, words_behind_dashes_say,
};
pub use share::Share;
pub use words::{Command, Engine, Source, Task, read_words};
