ghost use Rattle.std.specs.Prelude.{◌≡◌, ℕ, ◌≤◌, ◌<◌, ◌↔◌, List, [], Bool, Option, Some, IsTrue, IfOk, OnOk, OnErr, IfSome, length, take, drop};
ghost use Rattle.text_ports.specs.Faults.{Rose};

/// A call to the outside failed. The object that was called has counted it.
#[derive(Clone, Copy, Debug, PartialEq, Eq)]
pub struct Failed;

/// Files that are opened by name and read to their end, one at a time.
pub trait Files {
    /// Whether the file of this name may be opened. No call changes it.
    ghost may: { Self → List ℕ → Bool };

    /// The bytes of the file of this name, or None where they are not told. No call changes them.
    ghost holds: { Self → List ℕ → Option (List ℕ) };

    /// What is still to read of the file that was opened last, or None where it is not told.
    ghost left: { Self → Option (List ℕ) };

    /// How many calls have failed.
    ghost faults: { Self → ℕ };

    /// Opens the file of this name, to be read from its start. What was open before is closed, also on a
    /// failure.
    fn open(&mut self, name: &str) -> Result<(), Failed>
        requires { IsTrue (may self.old name.now) }
        ensures same_names { may self.new ≡ may self.old }
        ensures same_files { holds self.new ≡ holds self.old }
        ensures opened { OnOk result (left self.new ≡ holds self.old name.now) }
        ensures passed { OnOk result (faults self.new ≡ faults self.old) }
        ensures failed { OnErr result (Rose (faults self.old) (faults self.new)) }
        ensures closed { OnErr result (IfSome (left self.new) (λ bytes. bytes ≡ [])) }
        ensures never_falls { faults self.old ≤ faults self.new };

    /// Reads the next bytes into the front of the buffer and answers how many they are. 0 is the file's end.
    /// After a failure it is not told what is left, until the next `open`.
    fn read(&mut self, buffer: &mut [u8]) -> Result<usize, Failed>
        requires { 0 < length buffer.old }
        ensures same_names { may self.new ≡ may self.old }
        ensures same_files { holds self.new ≡ holds self.old }
        ensures fits { IfOk result (λ n. n ≤ length buffer.new) }
        ensures next { IfOk result (λ n. IfSome (left self.old) (λ bytes. take n buffer.new ≡ take n bytes)) }
        ensures rest { IfOk result (λ n. IfSome (left self.old) (λ bytes.
            left self.new ≡ Some (drop n bytes))) }
        ensures within { IfOk result (λ n. IfSome (left self.old) (λ bytes. n ≤ length bytes)) }
        ensures end { IfOk result (λ n. IfSome (left self.old) (λ bytes. (n ≡ 0) ↔ (bytes ≡ []))) }
        ensures passed { OnOk result (faults self.new ≡ faults self.old) }
        ensures failed { OnErr result (Rose (faults self.old) (faults self.new)) }
        ensures never_falls { faults self.old ≤ faults self.new };
}
