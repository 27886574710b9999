//! The sieve of a job, by all workers: each level is that of the sums over all sequences, to which each
//! worker adds the prefixes of its own.
#![tactic(auto)]

mod branches;
mod laws;
mod making;
mod passing;
mod rounds;
mod share;
mod sums;

pub use branches::PartBranches;
pub use laws::candidates_lead_to_all;
pub use making::{shares_of, sieve_of};
pub use rounds::pass_gate;
pub use share::Share;
