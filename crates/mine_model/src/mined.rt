use super::row::Row;

/// What an engine found: the frequent patterns, in any order, and the work that it counted.
#[derive(Debug, Drop)]
pub struct Mined {
    pub rows: Vec<Row>,
    pub work: Work,
}

/// The counted work of a run: the nodes of the search tree and its roots, and the pairs of a sequence and one
/// of its candidates. What an engine has not is 0.
#[derive(Clone, Copy, Debug, PartialEq, Eq)]
pub struct Work {
    pub nodes: u64,
    pub parts: u64,
    pub candidates: u64,
}
