ghost use Rattle.std.specs.Prelude.{◌≡◌};

use std::marker::Model;

/// The minimal automaton of a set of lists of ranks, by its code.
#[derive(Debug, Drop)]
pub struct Automaton(Vec<u32>);

impl Model for Automaton {
    ghost use Rattle.std.specs.Prelude.{ℕ, List};

    ghost Value = { List ℕ };

    ghost view = { λ a. a.0.items };
}

impl Automaton {
    /// The automaton with this code. Takes no memory.
    pub(crate) fn new(code: Vec<u32>) -> Automaton
        ensures { result ≡ code.items }
    {
        Automaton(code)
    }

    /// Its code. Takes no memory.
    pub fn code(&self) -> &[u32]
        ensures { result.now ≡ self.now }
    {
        self.0.as_slice()
    }
}
