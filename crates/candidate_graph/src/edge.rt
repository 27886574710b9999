/// A rank that can be written behind a prefix, whether the prefix with it is a candidate, and the number of
/// the node of the prefix with it: that of the node with no stands where nothing more can be written.
#[derive(Clone, Copy, Debug, PartialEq, Eq)]
pub struct Edge {
    pub rank: u32,
    pub ends: bool,
    pub next: u32,
}
