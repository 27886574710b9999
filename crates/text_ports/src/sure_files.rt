ghost use Rattle.std.specs.Prelude.{◌≡◌, ℕ, ◌<◌, true, List, [], Some, IsTrue, unwrap_or};
ghost use Rattle.text_ports.specs.Memory.{bytes_of};

use super::files::{Failed, Files};
use super::held::{Held, MemFile};

/// Files that are held in memory, tell their bytes and never fail. A missing name reads as empty.
#[derive(Drop)]
pub struct SureFiles {
    held: Held,
}

impl SureFiles {
    /// Of two files of one name the first counts. A read gives at most `cut` bytes.
    pub fn new(files: Vec<MemFile>, cut: usize) -> SureFiles
        requires { 0 < cut }
        ensures may { (name : List ℕ) → IsTrue (⟦<SureFiles as Files>⟧.may result name) }
        ensures holds { (name : List ℕ) → ⟦<SureFiles as Files>⟧.holds result name
            ≡ Some (unwrap_or (bytes_of files.items name) []) }
        ensures left { ⟦<SureFiles as Files>⟧.left result ≡ Some [] }
        ensures faults { ⟦<SureFiles as Files>⟧.faults result ≡ 0 }
    {
        SureFiles {
            held: Held::new(files, cut),
        }
    }
}

impl Files for SureFiles {
    ghost use Rattle.text_ports.specs.Held.{left_of};

    ghost may = { λ _ _. true };

    ghost holds = { λ files name. Some (unwrap_or (bytes_of files.held.files.items name) []) };

    ghost left = { λ files. Some (left_of files.held) };

    ghost faults = { λ _. 0 };

    fn open(&mut self, name: &str) -> Result<(), Failed> {
        let _found = self.held.open(name);
        Ok(())
    }

    fn read(&mut self, buffer: &mut [u8]) -> Result<usize, Failed> {
        Ok(self.held.read(buffer))
    }
}
