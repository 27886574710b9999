//! What can still come of each place of a sequence: which states lead to its end, and what may be written
//! there.
#![tactic(auto)]

mod alphabet;
mod columns;
mod cuts;
mod grid;
mod grid_parts;
mod grids;
mod kept_grids;
mod kinds;
mod number;
mod places;
mod reading;
mod successors;
mod table;
mod tables;

pub use alphabet::{Alphabet, alphabet_of, empty_alphabet, meet_items_of, whole_alphabet};
pub use columns::Columns;
pub use grid::Grid;
pub use grid_parts::GridParts;
pub use grids::Grids;
pub use kept_grids::KeptGrids;
pub use kinds::{Kind, Kinds, Scratch, outputs_of};
pub use places::{Place, push_met, push_places};
pub use reading::Reading;
pub use successors::{Successors, successors_of};
pub use table::{Words, keep_step, known_step};
pub use tables::Tables;
