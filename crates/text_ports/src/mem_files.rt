ghost use Rattle.std.specs.Prelude.{◌≡◌, ℕ, ◌<◌, true, List, [], Some, IsTrue};
ghost use Rattle.text_ports.specs.Memory.{bytes_of};

use super::faults::Calls;
use super::files::{Failed, Files};
use super::held::{Held, MemFile};

/// Files that are held in memory and tell their bytes. They give short reads, and they fail where they are
/// told to. A missing name is a fault. A call of `open` that fails leaves nothing to read, and one of `read`
/// takes nothing.
pub struct MemFiles {
    held: Held,
    calls: Calls,
}

// Written out, so that it is let go of by a call, and not part by part wherever one is.
impl Drop for MemFiles {
    fn drop(self) {
        let MemFiles { held: _, calls: _ } = self;
    }
}

impl MemFiles {
    /// Of two files of one name the first counts. The calls of `open` and `read` are counted together, from
    /// 1, and those in `fails` fail. A read gives at most `cut` bytes.
    pub fn new(files: Vec<MemFile>, fails: Vec<u64>, cut: usize) -> MemFiles
        requires { 0 < cut }
        ensures may { (name : List ℕ) → IsTrue (⟦<MemFiles as Files>⟧.may result name) }
        ensures holds { ⟦<MemFiles as Files>⟧.holds result ≡ bytes_of files.items }
        ensures left { ⟦<MemFiles as Files>⟧.left result ≡ Some [] }
        ensures faults { ⟦<MemFiles as Files>⟧.faults result ≡ 0 }
    {
        MemFiles {
            held: Held::new(files, cut),
            calls: Calls::new(fails),
        }
    }
}

impl Files for MemFiles {
    ghost use Rattle.text_ports.specs.Held.{left_of};

    ghost may = { λ _ _. true };

    ghost holds = { λ files. bytes_of files.held.files.items };

    ghost left = { λ files. Some (left_of files.held) };

    ghost faults = { λ files. files.calls.faults };

    fn open(&mut self, name: &str) -> Result<(), Failed> {
        self.held.close();
        self.calls.next()?;
        if self.held.open(name) {
            return Ok(());
        }
        Err(self.calls.fail())
    }

    fn read(&mut self, buffer: &mut [u8]) -> Result<usize, Failed> {
        self.calls.next()?;
        Ok(self.held.read(buffer))
    }
}
