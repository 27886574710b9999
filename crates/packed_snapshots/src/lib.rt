//! Snapshots of prefixes in few bytes: each as its differences from the one before it.
#![tactic(auto)]

mod laws;
mod numbers;
mod pushing;
mod reading;
mod snapshot;

pub use laws::{
    equal_bytes_hold_equal_snapshots, equal_snapshots_have_equal_bytes, walks_give_what_was_packed,
};
pub use pushing::push;
pub use reading::PackedSnapshots;
pub use snapshot::{Place, PlainSnapshot};
