ghost use Rattle.std.specs.Prelude.{◌≡◌};

use mine_model::Row;
use std::marker::Model;

/// A place in the search: the rank of the pivot or 0, then the ranks of the prefix.
#[derive(Debug, Drop)]
pub struct Label(Vec<u32>);

impl Model for Label {
    ghost use Rattle.std.specs.Prelude.{ℕ, List};

    ghost Value = { List ℕ };

    ghost view = { λ l. l.0.items };
}

impl Label {
    /// The label of these numbers. Takes no memory.
    pub fn new(numbers: Vec<u32>) -> Label
        ensures { result ≡ numbers.items }
    {
        Label(numbers)
    }

    /// Its numbers.
    pub fn numbers(&self) -> &[u32]
        ensures { result.now ≡ self.now }
    {
        self.0.as_slice()
    }
}

/// What a node grows into: its label, the line of the answer that it stands for, where there is one,
/// and its kids.
#[derive(Debug, Drop)]
pub struct Grown<N> {
    pub label: Label,
    pub row: Option<Row>,
    pub kids: Vec<N>,
}
