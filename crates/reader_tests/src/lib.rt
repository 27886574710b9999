//! Tests of what lies between words or files and items, and between rows and their bytes.
#![tactic(auto)]

#[cfg(test)]
mod expressions;
#[cfg(test)]
mod gap_rules;
#[cfg(test)]
mod hierarchies;
#[cfg(test)]
mod lines;
#[cfg(test)]
mod making;
#[cfg(test)]
mod merges;
#[cfg(test)]
mod names;
#[cfg(test)]
mod one_file;
#[cfg(test)]
mod ports;
#[cfg(test)]
mod rows;
#[cfg(test)]
mod sequences;
#[cfg(test)]
mod words;
