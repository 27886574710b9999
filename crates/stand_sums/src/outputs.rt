ghost use Rattle.std.specs.Prelude.{◌≡◌, ℕ, List};

/// Which ranks an item may be written as, by its kind and the state into which it is written.
pub trait Outputs {
    // The ranks.
    ghost ranks: { Self → ℕ → ℕ → List ℕ };

    // The kind and the state are known.
    ghost CanAsk: { Self → ℕ → ℕ → Type 0 };

    /// The ranks as which an item of the kind may be written into the state.
    fn outputs(&self, kind: u32, state: u16) -> &[u32]
        requires { CanAsk self.now kind state }
        ensures { result.now ≡ ranks self.now kind state };
}
