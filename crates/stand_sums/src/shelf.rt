/// The places of the stands of a rank in a run, the next one that is free, and where the last sequence ends
/// of which there is a stand, among the visits that are filed.
#[derive(Clone, Copy, Debug)]
pub(crate) struct Shelf {
    pub(crate) rank: u32,
    pub(crate) first: usize,
    pub(crate) next: usize,
    pub(crate) last: usize,
    pub(crate) end: usize,
}
