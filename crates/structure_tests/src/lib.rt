//! Tests of the structures that know no problem: sets, counts, bytes of snapshots, pools, schedules, locks.
#![tactic(auto)]

#[cfg(test)]
mod bits;
#[cfg(test)]
mod members;
#[cfg(test)]
mod packing;
#[cfg(test)]
mod pools;
#[cfg(test)]
mod schedules;
#[cfg(test)]
mod sums;
#[cfg(test)]
mod turns;
