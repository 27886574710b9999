/// A rank that follows, and in how many sequences.
#[derive(Clone, Copy, Debug, PartialEq, Eq)]
pub struct NextOf {
    pub rank: u32,
    pub count: u64,
}
