/// A rank that can follow a prefix: what the sequences weigh in which it can, those that have the prefix with
/// it itself as a pattern, and those in which more can follow; and the places of its stands in a run of those
/// of all ranks, from the first to before the last. It has none where what more follows weighs too little.
#[derive(Clone, Copy, Debug, PartialEq, Eq)]
pub struct NextRank {
    pub rank: u32,
    pub weight: u64,
    pub support: u64,
    pub longer: u64,
    pub first: usize,
    pub last: usize,
}
