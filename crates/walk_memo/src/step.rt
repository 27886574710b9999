/// A step from a set of states at a move: the number of the set behind it, and where its actions stand among
/// those of the memo, from the first to before the last.
#[derive(Clone, Copy, Debug, PartialEq, Eq)]
pub struct Step {
    pub next: u32,
    pub first: u32,
    pub last: u32,
}
