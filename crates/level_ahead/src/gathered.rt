//! What was met behind each rank in one sequence.

ghost use Rattle.std.specs.Prelude.{◌≡◌, ℕ, ◌<◌, ◌⊎◌, ◌↔◌, length, replicate, OnOk};
ghost use Rattle.state_bits.specs.Members.{Has};
ghost use Rattle.level_ahead.specs.Kept.{HasGathered};

use mine_model::NoMemory;
use state_bits::StateSet;
use std::alloc::Global;

/// By rank the set of ranks that were met behind it, for those that were touched. The sets of others hold
/// what was met in an earlier sequence, so none is cleared.
#[derive(Drop)]
pub(crate) struct Gathered {
    pub(crate) touched: StateSet<4>,
    pub(crate) sets: Vec<StateSet<4>>,
}

impl Gathered {
    /// Nothing was met, and there is room for no rank.
    pub(crate) fn new(alloc: Global) -> Gathered
        ensures { result.touched ≡ 0 }
    {
        Gathered {
            touched: StateSet::new(),
            sets: Vec::new(alloc),
        }
    }

    /// Begins a sequence: nothing was met in it.
    #[inline]
    pub(crate) fn forget(&mut self)
        ensures room { length self.new.sets.items ≡ length self.old.sets.items }
        ensures none { self.new.touched ≡ 0 }
    {
        self.touched.clear();
    }

    /// Behind each of the wanted ranks these next ones were met.
    pub(crate) fn gather(&mut self, wanted: &StateSet<4>, next: &StateSet<4>)
        requires { (rank : ℕ) → Has wanted.now rank → rank < length self.old.sets.items }
        ensures room { length self.new.sets.items ≡ length self.old.sets.items }
        ensures touched { (rank : ℕ) → Has self.new.touched rank
            ↔ (Has self.old.touched rank ⊎ Has wanted.now rank) }
        ensures gathered { (rank other : ℕ) → HasGathered self.new rank other
            ↔ (HasGathered self.old rank other ⊎ (Has wanted.now rank × Has next.now other)) }
    {
        for rank in wanted.iter() {
            self.gather_one(rank, next);
        }
    }

    /// Behind the rank these next ones were met.
    #[inline]
    fn gather_one(&mut self, rank: u32, next: &StateSet<4>)
        requires room { rank < length self.old.sets.items }
        requires few { rank < 256 }
        ensures room { length self.new.sets.items ≡ length self.old.sets.items }
        ensures touched { (r : ℕ) → Has self.new.touched r ↔ (Has self.old.touched r ⊎ (r ≡ rank)) }
        ensures gathered { (r other : ℕ) → HasGathered self.new r other
            ↔ (HasGathered self.old r other ⊎ ((r ≡ rank) × Has next.now other)) }
    {
        if self.touched.has(rank) {
            self.sets[rank as usize].union_with(next);
        } else {
            self.sets[rank as usize] = *next;
            self.touched.add(rank);
        }
    }
}
