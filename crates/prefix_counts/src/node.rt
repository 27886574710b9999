/// A list of ranks: that with the number `parent`, and the rank behind it. And what was added to its sum.
#[derive(Clone, Copy, Debug)]
pub(crate) struct Node {
    pub(crate) parent: u32,
    pub(crate) rank: u32,
    pub(crate) sum: u64,
}
