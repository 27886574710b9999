//! Tests of what a run leaves behind, asked of the whole command over files and sinks in memory.
#![tactic(auto)]

#[cfg(test)]
mod engines;
#[cfg(test)]
mod gates;
#[cfg(test)]
mod limits;
#[cfg(test)]
mod outside_faults;
#[cfg(test)]
mod proofs;
#[cfg(test)]
mod refusals;
#[cfg(test)]
mod rows;
#[cfg(test)]
mod runs;
#[cfg(test)]
mod sure_ports;
