//! How many of the sets that were given hold each member, counted for all members at once.
#![tactic(auto)]

mod bits;
mod counts;
mod digits;
mod low;
mod reaching;

pub use counts::MemberCounts;
