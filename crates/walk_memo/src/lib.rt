//! What sets of states do at a move: a table of sets and moves, filled when a step is first met, so that a
//! walk reads one cell at each place.
#![tactic(auto)]

mod action;
mod cells;
mod laws;
mod memo;
mod movement;
mod moves;
mod number;
mod step;
mod writing;

pub use action::Action;
pub use laws::cut_sets_have_the_same_actions;
pub use memo::Memo;
pub use movement::Move;
pub use moves::Moves;
pub use step::Step;
