//! Workers in threads of their own.
#![tactic(auto)]

mod threads;

pub use threads::done_by_each;
