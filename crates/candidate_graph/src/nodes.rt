//! Standpoints by number.

ghost use Rattle.std.specs.Prelude.{◌≡◌, ℕ, ◌<◌, ◌⊎◌, [], ◌∷◌, ◌++◌, Some, length, slice_get, option_map, IfOk, OnOk, OnErr};
ghost use Rattle.candidate_graph.specs.Graphs.{Standpoint};
ghost use Rattle.place_walk.specs.Groups.{IsMarked};

use super::words::{first_place, is_seen, read_stands, write_key};
use mine_model::NoMemory;
use pattern_counts::PatternCounts;
use place_walk::{Stand, Stands};
use std::alloc::Global;
use std::marker::Model;

/// Standpoints by numbers from 0 on, each once. A contract sees the list of them.
#[derive(Drop)]
pub(crate) struct Nodes {
    keys: PatternCounts,
    // Room for the words of one standpoint.
    words: Vec<u32>,
}

impl Model for Nodes {
    ghost use Rattle.std.specs.Prelude.{◌≡◌, ℕ, Some, List, slice_get};
    ghost use Rattle.pattern_counts.specs.Tally.{IsTally};
    ghost use Rattle.candidate_graph.specs.Graphs.{Standpoint};
    ghost use Rattle.candidate_graph.specs.Words.{IsKey, points_in};

    ghost Value = { List Standpoint };

    ghost view = { λ n. points_in n.keys.lists };

    ghost invariant = { λ n. (number : ℕ) (words : List ℕ) → slice_get n.keys.lists number ≡ Some words
        → IsKey words };
}

impl Nodes {
    /// None.
    pub(crate) fn new(alloc: Global) -> Nodes
        ensures { result ≡ [] }
    {
        Nodes {
            keys: PatternCounts::new(alloc),
            words: Vec::new(alloc),
        }
    }

    /// Forgets all.
    pub(crate) fn clear(&mut self)
        ensures { self.new ≡ [] }
    {
        self.keys.clear();
    }

    /// How many there are.
    pub(crate) fn len(&self) -> usize
        ensures count { result ≡ length self.now }
        ensures distinct { (one other : ℕ) (at : Standpoint) → slice_get self.now one ≡ Some at
            → slice_get self.now other ≡ Some at → one ≡ other }
    {
        self.keys.len()
    }

    /// The number of a standpoint, which is added if it is new.
    pub(crate) fn number(&mut self, seen: bool, stands: &Stands) -> Result<u32, NoMemory>
        requires { IsMarked stands.now }
        ensures grows { (self.new ≡ self.old)
            ⊎ (self.new ≡ self.old ++ record { seen = seen; stands = stands.now } ∷ []) }
        ensures same { OnErr result (self.new ≡ self.old) }
        ensures number { IfOk result (λ number. slice_get self.new number
            ≡ Some (record { seen = seen; stands = stands.now })) }
    {
        write_key(&mut self.words, seen, stands)?;
        let number = self.keys.number(self.words.as_slice())?;
        Ok(number)
    }

    /// Whether what is needed was seen there.
    pub(crate) fn seen(&self, number: u32) -> bool
        requires { number < length self.now }
        ensures { (at : Standpoint) → slice_get self.now number ≡ Some at → result ≡ at.seen }
    {
        is_seen(self.keys.list(number as usize))
    }

    /// The place of the first of the stands there, if there is one.
    pub(crate) fn first_place(&self, number: u32) -> Option<u32>
        requires { number < length self.now }
        ensures { (at : Standpoint) → slice_get self.now number ≡ Some at
            → result ≡ option_map (λ stand. stand.place) (slice_get at.stands 0) }
    {
        first_place(self.keys.list(number as usize))
    }

    /// The stands there, in place of those before.
    pub(crate) fn read(&self, number: u32, stands: &mut Vec<Stand>) -> Result<(), NoMemory>
        requires { number < length self.now }
        ensures { OnOk result ((at : Standpoint) → slice_get self.now number ≡ Some at
            → stands.new.items ≡ at.stands) }
    {
        read_stands(self.keys.list(number as usize), stands)
    }
}
