ghost use Rattle.std.specs.Prelude.{◌≡◌, ℕ, ◌+◌, ◌≤◌, List, OnOk, IfErr};
ghost use Rattle.mine_model.specs.Text.{IsSoundLine};

/// Where a field stands in its line: from the first byte to before the last, counted from 0.
#[derive(Clone, Copy, Debug, PartialEq, Eq)]
pub struct Span {
    pub from: usize,
    pub to: usize,
}

/// Takes the lines of a file, one after another.
pub trait LineVisitor {
    ghost use Rattle.text_ports.specs.Lines.{AreFields};

    /// Why it refuses a line.
    type Fault;

    /// It took the line with this number: from the value before to the value after.
    ghost took: { Self → ℕ → List ℕ → Self → Type 0 };

    /// It refused the line with this number for this fault.
    ghost refused: { Self → ℕ → List ℕ → Self.Fault → Self → Type 0 };

    /// The next line, with its number, counted from 1. The text is without its end.
    fn line(&mut self, number: u64, text: &[u8], fields: &[Span]) -> Result<(), Self::Fault>
        requires sound { IsSoundLine text.now }
        requires fields { AreFields text.now fields.now }
        ensures took { OnOk result (took self.old number text.now self.new) }
        ensures refused { IfErr result (λ fault. refused self.old number text.now fault self.new) };
}
