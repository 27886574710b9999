use mine_model::{Expr, Name};

/// A name of an expression, with the column of its first byte, counted in bytes from 1. A quoted name begins
/// with its quote.
#[derive(Debug, Drop)]
pub struct NameUse {
    pub column: u32,
    pub name: Name,
}

/// An expression that was read. In the tree `Item(k)` stands for the k-th of the uses, counted from 0 in the
/// order of the text.
#[derive(Debug, Drop)]
pub struct Parsed {
    pub tree: Expr,
    pub uses: Vec<NameUse>,
}
