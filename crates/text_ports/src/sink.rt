ghost use Rattle.std.specs.Prelude.{◌≡◌, ℕ, ◌≤◌, ◌<◌, ◌++◌, List, Option, Some, IfOk, OnOk, OnErr, IfSome, length, take};
ghost use Rattle.text_ports.specs.Faults.{Rose};

use super::files::Failed;

/// Where bytes are written to.
pub trait Sink {
    /// The bytes written so far, or None where they are not told.
    ghost written: { Self → Option (List ℕ) };

    /// How many calls have failed.
    ghost faults: { Self → ℕ };

    /// Writes the first bytes of the piece and answers how many they are: at least one, where the piece is
    /// not empty.
    fn write(&mut self, piece: &[u8]) -> Result<usize, Failed>
        ensures fits { IfOk result (λ n. n ≤ length piece.now) }
        ensures some { IfOk result (λ n. 0 < length piece.now → 0 < n) }
        ensures appends { IfOk result (λ n. IfSome (written self.old)
            (λ before. written self.new ≡ Some (before ++ take n piece.now))) }
        ensures passed { OnOk result (faults self.new ≡ faults self.old) }
        ensures failed { OnErr result (Rose (faults self.old) (faults self.new)) }
        ensures unchanged { OnErr result (written self.new ≡ written self.old) }
        ensures never_falls { faults self.old ≤ faults self.new };
}
