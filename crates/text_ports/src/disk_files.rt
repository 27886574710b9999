ghost use Rattle.std.specs.Prelude.{◌≡◌, ℕ, ◌≤◌, true, List, None, IfOk, IsTrue, length};

use super::faults::{TRIES, raised};
use super::files::{Failed, Files};
use std::io::{ErrorKind, Input, Read};
use std::{fs, rt};

/// The name that stands for standard input.
const STANDARD_INPUT: &str = "-";

/// What is open.
#[derive(Drop)]
enum Source<F, I> {
    Nothing,
    File(F),
    Input(I),
}

/// The files of the disk by their paths, and standard input by the name `-`. Nothing is told of their bytes.
/// A read goes into the caller's buffer with no buffer between. Before the first `open` they read as ended.
#[derive(Drop)]
pub struct DiskFiles<R: rt::Files + Input + Drop> {
    runtime: R,
    source: Source<R::File, R::Reader>,
    faults: u64,
}

impl<R: rt::Files + Input + Drop> DiskFiles<R> {
    /// Nothing is open yet.
    pub fn new(rt: R) -> DiskFiles<R>
        ensures may { (name : List ℕ) → IsTrue (⟦<DiskFiles<R> as Files>⟧.may result name) }
        ensures faults { ⟦<DiskFiles<R> as Files>⟧.faults result ≡ 0 }
    {
        DiskFiles {
            runtime: rt,
            source: Source::Nothing,
            faults: 0,
        }
    }
}

impl<R: rt::Files + Input + Drop> Files for DiskFiles<R> {
    ghost may = { λ _ _. true };

    ghost holds = { λ _ _. None };

    ghost left = { λ _. None };

    ghost faults = { λ files. files.faults };

    fn open(&mut self, name: &str) -> Result<(), Failed> {
        self.source = Source::Nothing;
        if name == STANDARD_INPUT {
            self.source = Source::Input(self.runtime.reader());
            return Ok(());
        }
        match open_file(&self.runtime, name) {
            Ok(file) => {
                self.source = Source::File(file);
                Ok(())
            }
            Err(Failed) => {
                self.faults = raised(self.faults);
                Err(Failed)
            }
        }
    }

    fn read(&mut self, buffer: &mut [u8]) -> Result<usize, Failed> {
        let outcome = match &mut self.source {
            Source::Nothing => Ok(0),
            Source::File(file) => read_some(file, buffer),
            Source::Input(input) => read_some(input, buffer),
        };
        if outcome.is_err() {
            self.faults = raised(self.faults);
        }
        outcome
    }
}

/// Opens a file of the disk to be read. A call that is interrupted is made again.
fn open_file<R: rt::Files>(runtime: &R, name: &str) -> Result<R::File, Failed> {
    for _ in 0..TRIES {
        match fs::open(runtime, name) {
            Ok(file) => return Ok(file),
            Err(error) if error.kind() == ErrorKind::Interrupted => {}
            Err(_) => return Err(Failed),
        }
    }
    Err(Failed)
}

/// One read. A call that is interrupted is made again.
fn read_some<S: Read>(source: &mut S, buffer: &mut [u8]) -> Result<usize, Failed>
    ensures { IfOk result (λ n. n ≤ length buffer.new) }
{
    for _ in 0..TRIES {
        match source.read(buffer) {
            Ok(count) => return Ok(count),
            Err(error) if error.kind() == ErrorKind::Interrupted => {}
            Err(_) => return Err(Failed),
        }
    }
    Err(Failed)
}
