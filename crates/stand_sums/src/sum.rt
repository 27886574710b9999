use mine_model::NoMemory;

/// What is summed up of a rank, in the sequences up to the last of each kind: in which it follows, in which
/// the prefix with it is a pattern, in which more can follow; and how many of its visits go on. The sequences
/// of a walk are numbered from 1.
#[derive(Clone, Copy, Debug)]
pub(crate) struct Sum {
    pub(crate) followed: u32,
    pub(crate) ended: u32,
    pub(crate) opened: u32,
    pub(crate) stands: u32,
    pub(crate) weight: u64,
    pub(crate) support: u64,
    pub(crate) longer: u64,
}

/// No visit was met.
pub(crate) const NOTHING: Sum = Sum {
    followed: 0,
    ended: 0,
    opened: 0,
    stands: 0,
    weight: 0,
    support: 0,
    longer: 0,
};

/// A sequence, by its number among those of a walk, and what it weighs.
#[derive(Clone, Copy, Debug)]
pub(crate) struct Counted {
    pub(crate) number: u32,
    pub(crate) weight: u32,
}
