//! A sieve of prefixes, level by level. The candidates of all sequences are too many to be counted; of their
//! prefixes each adds the weights of its sequences to the bucket of its hash, and one whose bucket stays
//! below the threshold is cut, with all candidates behind it. A bucket has at least what its prefixes weigh,
//! so no prefix of a frequent pattern is cut, whatever the hash.
#![tactic(auto)]

mod branches;
mod buckets;
mod fronts;
mod hashes;
mod laws;
mod level;
mod passing;
mod raising;
mod sieve;

pub use branches::Branches;
pub use buckets::Buckets;
pub use hashes::{START, hash_behind};
pub use laws::{
    a_pass_raises_what_it_has_to, each_prefix_of_a_frequent_pattern_passes, one_more_sequence,
    shares_join,
};
pub use level::Level;
pub use passing::{Room, pass};
pub use sieve::Sieve;
