/// The sequences of a part of a job, by their numbers: with a pivot those that have a pattern whose greatest
/// rank it is, else those that have a pattern of frequent items.
#[derive(Debug, Drop)]
pub struct PartSeed {
    pub pivot: Option<u32>,
    pub sequences: Vec<u32>,
}
