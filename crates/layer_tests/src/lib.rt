//! Tests of the layers below the run, over data that stands once.
#![tactic(auto)]

#[cfg(test)]
mod automata;
#[cfg(test)]
mod compiling;
#[cfg(test)]
mod data;
#[cfg(test)]
mod frequencies;
#[cfg(test)]
mod grids;
#[cfg(test)]
mod growing;
#[cfg(test)]
mod judging;
#[cfg(test)]
mod mining;
#[cfg(test)]
mod pivots;
#[cfg(test)]
mod proving;
#[cfg(test)]
mod searching;
#[cfg(test)]
mod snapshots;
