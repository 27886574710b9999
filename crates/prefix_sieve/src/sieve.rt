ghost use Rattle.std.specs.Prelude.{◌≡◌, [], ◌∷◌, ◌++◌, length, slice_get, OnOk, OnErr};
ghost use Rattle.prefix_sieve.specs.Sieves.{lets_pass};

use super::level::Level;
use mine_model::NoMemory;
use std::alloc::Global;
use std::marker::Model;

/// The levels that were made so far: that of prefixes of one rank first, then of two, and so on.
#[derive(Drop)]
pub struct Sieve {
    levels: Vec<Level>,
}

impl Model for Sieve {
    ghost use Rattle.std.specs.Prelude.{Bool, List};

    ghost Value = { List (List Bool) };

    ghost view = { λ s. s.levels.items };
}

impl Sieve {
    /// No levels: all prefixes pass.
    pub fn new(alloc: Global) -> Sieve
        ensures { result ≡ [] }
    {
        Sieve {
            levels: Vec::new(alloc),
        }
    }

    /// How many levels there are.
    pub fn depth(&self) -> usize
        ensures { result ≡ length self.now }
    {
        self.levels.len()
    }

    /// One level more, for prefixes of one rank more.
    pub fn push(&mut self, level: Level) -> Result<(), NoMemory>
        ensures ok { OnOk result (self.new ≡ self.old ++ level ∷ []) }
        ensures err { OnErr result (self.new ≡ self.old) }
    {
        self.levels.push(level)?;
        Ok(())
    }

    /// Whether a prefix passes, by its hash, which has so many ranks before its last.
    #[inline]
    pub fn passes(&self, before: usize, hash: u64) -> bool
        ensures { result ≡ lets_pass (slice_get self.now before) hash }
    {
        match self.levels.get(before) {
            Some(level) => level.passes(hash),
            None => true,
        }
    }
}
