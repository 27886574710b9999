//! The stands of a prefix that waits, as the bytes of its snapshots, and back: a place is the start of its
//! sequence and a position in it.
#![tactic(auto)]

mod packing;
mod searching;
mod unpacking;

pub use packing::pack;
pub use unpacking::unpack;
