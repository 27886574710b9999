/// What a search begins with.
#[derive(Clone, Copy, Debug)]
pub enum Division {
    /// One part, without a pivot, which has all sequences.
    Whole,
    /// A part for each pivot, with the sequences that have a pattern of it.
    ByPivots,
}
