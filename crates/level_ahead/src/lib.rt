//! What follows each of the ranks that may follow a prefix, counted in the pass over the prefix's own visits:
//! where behind these ranks nothing goes on, a walk of its own for each of them is spared. Where the prefix
//! lacks a rank, nothing goes on behind another if only the lacking one follows, and ends.
#![tactic(auto)]

mod ahead;
mod counting;
mod following;
mod gathered;
mod laws;
mod next_of;
mod reading;

pub use ahead::{Ahead, asks_about};
pub use laws::{counts_add_up, what_reaches_follows_the_longer_prefix};
pub use next_of::NextOf;
