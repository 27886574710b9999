/// A rank that can follow a prefix, with the weight of the sequences in which it can, and the weight of those
/// that have the longer prefix itself as a pattern.
#[derive(Clone, Copy, Debug, PartialEq, Eq)]
pub struct NextRank {
    pub rank: u32,
    pub weight: u64,
    pub support: u64,
}
