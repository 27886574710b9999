//! What may follow a prefix, from the visits of a walk, where there are few ranks: the ranks of a visit are
//! one set, and the sequences in which each rank follows are counted for all ranks at once. Where that does
//! not serve, they are counted rank by rank.
#![tactic(auto)]

mod counting;
mod lacking;
mod masked;
mod masks;
mod reaching;
mod seen;
mod sums;

pub use masks::Masks;
pub use sums::MaskedSums;
