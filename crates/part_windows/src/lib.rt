//! Windows of sequences and merged sequences, as laws over definitions. Within the bound of a part many
//! sequences have the same patterns, for they differ only where nothing that the bound allows is written.
//! They may be merged into one entry with the sum of their weights, and no support that is counted changes.
#![tactic(auto)]

mod laws;

pub use laws::{
    alike_windows_have_the_same_patterns, each_sequence_has_a_window, entries_are_made_one_by_one,
    entries_tell_the_supports_of_a_part, entries_weigh_what_their_sequences_weigh,
    equal_keys_make_entries, first_writes_complete_and_last_writes_end,
    kinds_tell_items_of_one_kind, patterns_are_written_in_the_window, silent_runs_go_item_by_item,
    windows_reach_from_first_to_last_writes,
};
