use mine_model::Leaf;

/// A state of a transducer, by its number. State 0 is the start, and state k the k-th leaf in the order of
/// the text once all repetitions are written out.
#[derive(Clone, Copy, Debug, PartialEq, Eq, PartialOrd, Ord, Hash)]
pub struct State(pub u32);

/// What an edge into a state reads, and whether it writes.
#[derive(Clone, Copy, Debug, PartialEq, Eq)]
pub struct Label {
    pub leaf: Leaf,
    pub captured: bool,
}

/// An edge of a transducer: it reads an item that its leaf matches, and writes an output of the leaf where it
/// is captured.
#[derive(Clone, Copy, Debug, PartialEq, Eq)]
pub struct Edge {
    pub leaf: Leaf,
    pub captured: bool,
    pub to: State,
}
