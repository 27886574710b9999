//! What a lock asks of its value and of the changes that are made to it.
ghost use Rattle.std.specs.Prelude.{◌≡◌, ℕ, List, [], ◌∷◌, ◌++◌, OnOk, OnErr};
ghost use Rattle.turn_lock.specs.History.{Made};

use mine_model::NoMemory;

/// A value that remembers the changes made to it.
pub trait Kept: Send {
    /// The fixed data that a value belongs to.
    type Ground;

    // The changes so far, oldest first, each with the number of the pass that made it.
    ghost history_of: { Self → List Made };

    // What no change alters.
    ghost ground_of: { Self → Self.Ground };
}

/// A change that can be made to a value which remembers it.
pub trait Change<T: Kept> {
    // What the history says of this change.
    ghost entry: { Self → List ℕ };

    // The values that this change can be made to, by their fixed data.
    ghost suits: { Self → T.Ground → Type 0 };

    // How the change stands before and after a call that wanted memory.
    ghost refused: { Self → Self → Type 0 };

    /// Makes the change, as the pass of this number.
    fn apply(&mut self, number: u32, value: &mut T) -> Result<(), NoMemory>
        requires { suits self.old (T.ground_of value.old) }
        ensures made { OnOk result
            (T.history_of value.new ≡ T.history_of value.old ++ (number, entry self.old) ∷ []) }
        ensures stays { OnOk result (T.ground_of value.new ≡ T.ground_of value.old) }
        ensures refused { OnErr result (refused self.old self.new) }
        ensures same { OnErr result (value.new ≡ value.old) };
}
