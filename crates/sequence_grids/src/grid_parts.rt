use super::kinds::Kinds;
use super::places::Place;
use super::tables::Tables;
use mining_job::{Bound, Job};

/// What grids are made of: their job and bound, what was found out of items and of places, the places of all
/// grids, those of one from the last to the first, the number of places up to the end of each grid, and the
/// number of its sequence.
#[derive(Drop)]
pub struct GridParts<'a> {
    pub job: &'a Job,
    pub bound: Bound,
    pub tables: Tables,
    pub kinds: Kinds,
    pub places: Vec<Place>,
    pub ends: Vec<usize>,
    pub sequences: Vec<u32>,
}
