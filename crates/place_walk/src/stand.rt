/// Where a path of a prefix stands: before a place, in a state. The first stand of each sequence is marked.
#[derive(Clone, Copy, Debug, PartialEq, Eq)]
pub struct Stand {
    pub place: u32,
    pub state: u16,
    pub first: bool,
}
