ghost use Rattle.std.specs.Prelude.{◌≡◌, ℕ, ◌↔◌, Bool, IsTrue, Contains};
ghost use Rattle.state_bits.specs.Members.{Has};

use stand_sums::Outputs;
use state_bits::StateSet;

/// Which ranks an item may be written as, also as one set, where there are few.
pub trait Masks: Outputs {
    // The ranks are kept as sets, too.
    ghost keeps: { Self → Bool };

    /// Whether the ranks are kept as sets, too.
    fn has_masks(&self) -> bool
        ensures { result ≡ keeps self.now };

    /// The ranks as which an item of the kind may be written into the state, as one set.
    fn mask(&self, kind: u32, state: u16) -> &StateSet<4>
        requires kept { IsTrue (keeps self.now) }
        requires asked { Self.CanAsk self.now kind state }
        ensures { (rank : ℕ) → Has result.now rank ↔ Contains (Self.ranks self.now kind state) rank };
}
