use super::item::Item;

/// An item expression: what it matches, and what it writes inside a capture.
#[derive(Clone, Copy, Debug, PartialEq, Eq)]
pub enum Leaf {
    /// `w`: matches w and everything below it, and writes the item matched.
    Under(Item),
    /// `w=`: matches w alone, and writes it.
    Exact(Item),
    /// `w^`: matches w and everything below it, and writes one of the item matched and what lies between it
    /// and w.
    Climb(Item),
    /// `w^=`: matches w and everything below it, and writes w.
    Forced(Item),
    /// `.`: matches any item, and writes it.
    Any,
    /// `.^`: matches any item, and writes it or something above it.
    AnyClimb,
    /// `!w`: matches what is neither w nor below it, and writes the item matched.
    Not(Item),
    /// `!w=`: matches all items but w, and writes the item matched.
    NotExact(Item),
}

/// A pattern expression.
#[derive(Debug, Drop)]
pub enum Expr {
    /// An item expression.
    Leaf(Leaf),
    /// Concatenation.
    Cat(Box<Expr>, Box<Expr>),
    /// Alternation.
    Alt(Box<Expr>, Box<Expr>),
    /// From `least` to `most` times `inner`, with no bound above where `most` is None.
    Rep {
        inner: Box<Expr>,
        least: u32,
        most: Option<u32>,
    },
    /// A capture: what is matched inside is written.
    Cap(Box<Expr>),
}
