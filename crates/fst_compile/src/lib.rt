//! Transducers of pattern expressions: one state for each leaf once all repetitions are written out, and no
//! empty moves.
#![tactic(auto)]

mod compiling;
mod copying;
mod edge;
mod fragment;
mod fst;
mod labelling;
mod linking;
mod repeating;
mod rowing;
mod rows;
mod writing;

pub use compiling::compile;
pub use edge::{Edge, Label, State};
pub use fst::Fst;
pub use writing::outputs;
