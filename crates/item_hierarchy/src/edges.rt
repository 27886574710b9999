use mine_model::Item;

/// The rows of a hierarchy by the numbers of names, and how many names there are.
#[derive(Debug, Drop)]
pub struct Edges {
    pub items: u32,
    pub rows: Vec<EdgeRow>,
}

/// `parent` stands directly above `child`, as this line of the file says, counted from 1.
#[derive(Clone, Copy, Debug, PartialEq, Eq)]
pub struct EdgeRow {
    pub child: Item,
    pub parent: Item,
    pub line: u64,
}
