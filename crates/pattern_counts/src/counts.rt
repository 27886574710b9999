//! Lists of ranks with sums, which are found by their hashes, and the memory that they have.

ghost use Rattle.std.specs.Prelude.{◌≡◌, ℕ, ◌+◌, ◌^◌, ◌<◌, ◌≤◌, ◌↔◌, List, [], ◌∷◌, ◌++◌, length, slice_get, Some, Contains, IsNone, IsTrue, IfSome, OnOk};
ghost use Rattle.flat_lists.specs.Shelf.{elements_of};
ghost use Rattle.pattern_counts.specs.Tally.{no_lists, IsTally, sum_of, Adds};
ghost use Rattle.pattern_counts.specs.Hashes.{hash_of};
ghost use Rattle.pattern_counts.specs.Counted.{HasRoom};

use super::table::{Slot, find, free_all, held_at_home, make_room, place};
use flat_lists::FlatLists;
use mine_model::NoMemory;
use std::alloc::Global;
use std::marker::Model;

/// As many lists may be held: each has a number, counted from 1, in 32 bits.
const MOST_LISTS: usize = 4_294_967_295;

/// A table with more slots than so many for each list is dropped when it is cleared.
const MOST_SPARSE: usize = 8;

/// So many lists at a time are read early.
const TOUCHED: usize = 32;

/// Lists by numbers from 0 on, by the same numbers their sums and their hashes, and a table that finds the
/// number of a list.
pub(crate) struct Counts {
    lists: FlatLists<u32>,
    sums: Vec<u64>,
    hashes: Vec<u32>,
    slots: Vec<Slot>,
    // What was read early, which nothing asks for: so the reads are made.
    touched: u64,
}

// Written out, so that it is let go of by a call, and not part by part wherever one is.
impl Drop for Counts {
    fn drop(self) {
        let Counts {
            lists: _,
            sums: _,
            hashes: _,
            slots: _,
            touched: _,
        } = self;
    }
}

impl Model for Counts {
    ghost use Rattle.std.specs.Prelude.{◌-◌, min, length, vec_capacity};
    ghost use Rattle.pattern_counts.specs.Counted.{Counted, AreCounts};

    ghost Value = { Counted };

    ghost view = { λ c. record {
      tally = record { lists = c.lists.lists; sums = c.sums.items };
      most_lists = min (min c.lists.most_lists (vec_capacity c.sums))
          (min (vec_capacity c.hashes) (min (length c.slots.items - 1) 4294967295));
      most_ranks = c.lists.most_elements;
    } };

    ghost invariant = { λ c. AreCounts (record { lists = c.lists.lists; sums = c.sums.items })
        c.hashes.items c.slots.items };
}

impl Counts {
    /// No lists. Takes no memory.
    pub(crate) fn new(alloc: Global) -> Counts
        ensures { result.tally ≡ no_lists }
    {
        Counts {
            lists: FlatLists::new(alloc),
            sums: Vec::new(alloc),
            hashes: Vec::new(alloc),
            slots: Vec::new(alloc),
            touched: 0,
        }
    }

    /// No lists. Keeps the memory, but for a table of which little was used: a small one stays in the caches.
    pub(crate) fn clear(&mut self)
        ensures { self.new.tally ≡ no_lists }
    {
        if self.slots.len() / MOST_SPARSE > self.hashes.len() {
            self.slots = Vec::new(*self.slots.allocator());
        } else {
            free_all(&mut self.slots);
        }
        self.lists.clear();
        self.sums.clear();
        self.hashes.clear();
    }

    pub(crate) fn len(&self) -> usize
        ensures count { result ≡ length self.now.tally.lists }
        ensures tally { IsTally self.now.tally }
        ensures few { length self.now.tally.lists ≤ 4294967295 }
    {
        self.lists.len()
    }

    pub(crate) fn ranks(&self) -> usize
        ensures { result ≡ elements_of self.now.tally.lists }
    {
        self.lists.elements()
    }

    pub(crate) fn list(&self, number: usize) -> &[u32]
        requires { number < length self.now.tally.lists }
        ensures { slice_get self.now.tally.lists number ≡ Some result.now }
    {
        self.lists.list(number)
    }

    pub(crate) fn sum(&self, number: usize) -> u64
        requires { number < length self.now.tally.lists }
        ensures sum { slice_get self.now.tally.sums number ≡ Some result }
        ensures tally { IsTally self.now.tally }
    {
        self.sums[number]
    }

    pub(crate) fn hash(&self, number: usize) -> u32
        requires { number < length self.now.tally.lists }
        ensures { (list : List ℕ) → slice_get self.now.tally.lists number ≡ Some list
            → result ≡ hash_of list }
    {
        self.hashes[number]
    }

    /// The number of the list with this hash, if it is held.
    pub(crate) fn find(&self, hash: u32, list: &[u32]) -> Option<usize>
        requires { hash ≡ hash_of list.now }
        ensures none { IsNone result ↔ ¬ Contains self.now.tally.lists list.now }
        ensures number { IfSome result (λ number. slice_get self.now.tally.lists number ≡ Some list.now) }
    {
        find(&self.lists, self.slots.as_slice(), hash, list)
    }

    /// Adds the weight to the sum of the list with this number.
    pub(crate) fn add_to(&mut self, number: usize, list: &[u32], weight: u64)
        requires list { slice_get self.old.tally.lists number ≡ Some list.now }
        requires room { sum_of self.old.tally list.now + weight < 2 ^ 64 }
        ensures adds { Adds list.now weight self.old.tally self.new.tally }
        ensures tally { IsTally self.new.tally }
        ensures lists { self.new.tally.lists ≡ self.old.tally.lists }
        ensures most_lists { self.new.most_lists ≡ self.old.most_lists }
        ensures most_ranks { self.new.most_ranks ≡ self.old.most_ranks }
    {
        self.sums[number] += weight;
    }

    /// Reads early where a list with this hash may stand.
    pub(crate) fn touch(&mut self, hash: u32)
        ensures { self.new ≡ self.old }
    {
        self.touched ^= u64::from(held_at_home(self.slots.as_slice(), hash));
    }

    /// At every so many numbers reads early what may be held of the next lists of the others, from this
    /// number on: their slots, one after another with nothing between, so that they come to the processor
    /// side by side, and then the lists and sums that these name.
    pub(crate) fn touch_next(&mut self, others: &Counts, from: usize)
        ensures { self.new ≡ self.old }
    {
        if from % TOUCHED > 0 {
            return;
        }
        let end = others.hashes.len().min(from.saturating_add(TOUCHED));
        let mut touched: u64 = 0;
        for number in from..end {
            touched ^= u64::from(held_at_home(self.slots.as_slice(), others.hashes[number]));
        }
        for number in from..end {
            let held = held_at_home(self.slots.as_slice(), others.hashes[number]) as usize;
            touched ^= self.read_early(held);
        }
        self.touched ^= touched;
    }

    // Reads the sum and the first rank of the list with the number, counted from 1.
    fn read_early(&self, held: usize) -> u64 {
        if held == 0 || held > self.lists.len() {
            return 0;
        }
        let first = self.lists.list(held - 1).first().copied();
        let sum = self.sums.get(held - 1).copied();
        sum.unwrap_or(0) ^ u64::from(first.unwrap_or(0))
    }

    /// Takes memory for so many more lists with so many ranks in all.
    pub(crate) fn reserve(&mut self, lists: usize, ranks: usize) -> Result<(), NoMemory>
        ensures same { self.new.tally ≡ self.old.tally }
        ensures tally { IsTally self.new.tally }
        ensures room { OnOk result (HasRoom self.new lists ranks) }
    {
        if lists > MOST_LISTS - self.lists.len() {
            return Err(NoMemory);
        }
        self.lists.reserve(lists, ranks)?;
        self.sums.reserve(lists)?;
        self.hashes.reserve(lists)?;
        make_room(self.hashes.as_slice(), &mut self.slots, lists)?;
        Ok(())
    }

    /// One more list, for which there is memory.
    pub(crate) fn append(&mut self, hash: u32, list: &[u32], weight: u64)
        requires hash { hash ≡ hash_of list.now }
        requires new { ¬ Contains self.old.tally.lists list.now }
        requires room { HasRoom self.old 1 (length list.now) }
        ensures adds { Adds list.now weight self.old.tally self.new.tally }
        ensures tally { IsTally self.new.tally }
        ensures lists { self.new.tally.lists ≡ self.old.tally.lists ++ list.now ∷ [] }
        ensures count { length self.new.tally.lists ≡ length self.old.tally.lists + 1 }
        ensures ranks { elements_of self.new.tally.lists
            ≡ elements_of self.old.tally.lists + length list.now }
        ensures most_lists { self.old.most_lists ≤ self.new.most_lists }
        ensures most_ranks { self.old.most_ranks ≤ self.new.most_ranks }
    {
        let number = self.lists.len();
        self.lists.push_reserved(list);
        self.sums.push_reserved(weight);
        self.hashes.push_reserved(hash);
        place(&mut self.slots, hash, number as u32);
    }

    /// Adds the weight to the sum of the list, for which there is memory if it is new.
    pub(crate) fn put(&mut self, hash: u32, list: &[u32], weight: u64)
        requires hash { hash ≡ hash_of list.now }
        requires sum { sum_of self.old.tally list.now + weight < 2 ^ 64 }
        requires room { HasRoom self.old 1 (length list.now) }
        ensures adds { Adds list.now weight self.old.tally self.new.tally }
        ensures tally { IsTally self.new.tally }
        ensures count { length self.new.tally.lists ≤ length self.old.tally.lists + 1 }
        ensures ranks { elements_of self.new.tally.lists
            ≤ elements_of self.old.tally.lists + length list.now }
        ensures most_lists { self.old.most_lists ≤ self.new.most_lists }
        ensures most_ranks { self.old.most_ranks ≤ self.new.most_ranks }
    {
        match self.find(hash, list) {
            Some(number) => self.add_to(number, list, weight),
            None => self.append(hash, list, weight),
        }
    }
}
