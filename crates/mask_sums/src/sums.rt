ghost use Rattle.std.specs.Prelude.{◌≡◌, ℕ, List, Some, length, replicate, slice_get, All, IfOk, OnOk};
ghost use Rattle.place_walk.specs.declared.visit.Visit.{Visit as Visited};
ghost use Rattle.stand_sums.specs.Writings.{IsReadable};
ghost use Rattle.stand_sums.specs.Sequences.{AreSequences};
ghost use Rattle.stand_sums.specs.Sums.{Tally, empty_tally, AreCounted, AreNext};
ghost use Rattle.mask_sums.specs.Kept.{lacking as lacking_of};

use super::counting::count_all;
use super::masked::Masked;
use super::masks::Masks;
use super::reaching::reaching;
use mine_model::NoMemory;
use place_walk::Visit;
use stand_sums::{Aim, NextRank, Sums};
use std::alloc::Global;
use std::marker::Model;

/// A worker's room for sums by rank. A contract sees what is summed up of each rank. Visits are counted by
/// sets of ranks where there are at most 256 ranks and each sequence weighs 1, and else rank by rank.
pub struct MaskedSums {
    sums: Sums,
    masked: Masked,
    ranks: usize,
    // Whether anything was counted rank by rank, and by sets, since the last clearing.
    by_ranks: bool,
    by_sets: bool,
}

// Written out, so that it is let go of by a call, and not part by part wherever one is.
impl Drop for MaskedSums {
    fn drop(self) {
        let MaskedSums {
            sums: _,
            masked: _,
            ranks: _,
            by_ranks: _,
            by_sets: _,
        } = self;
    }
}

impl Model for MaskedSums {
    ghost use Rattle.std.specs.Prelude.{List};
    ghost use Rattle.stand_sums.specs.Sums.{Tally};
    ghost use Rattle.mask_sums.specs.Sets.{together};
    ghost use Rattle.mask_sums.specs.Kept.{IsRoom};

    ghost Value = { List Tally };

    ghost view = { λ s. together s.masked 0 s.sums };

    ghost invariant = { λ s. IsRoom s.ranks s.sums s.masked s.by_ranks s.by_sets };
}

impl MaskedSums {
    /// Nothing was counted, with room for so many ranks, 0 among them.
    pub fn new(alloc: Global, ranks: usize) -> Result<MaskedSums, NoMemory>
        ensures { IfOk result (λ sums. sums ≡ replicate ranks empty_tally) }
    {
        Ok(MaskedSums {
            sums: Sums::new(alloc, ranks)?,
            masked: Masked::new(alloc),
            ranks,
            by_ranks: false,
            by_sets: false,
        })
    }

    /// Counts the visits of some whole sequences for the ranks that each may write, behind a prefix with this
    /// aim. Rank by rank it also wants memory where 2^32 - 1 sequences, or as many visits that write a rank
    /// and go on, were so counted. Then anything may have been counted of these visits. A sequence weighs
    /// what is told of the place of its first visit, so all its places, the wall too, want the same weight.
    pub fn add<T: Masks>(
        &mut self,
        table: &T,
        aim: Aim,
        weights: &[u32],
        visits: &[Visit],
    ) -> Result<(), NoMemory>
        requires { All (IsReadable (T.ranks table.now) (T.CanAsk table.now) (length self.old)) visits.now }
        ensures room { length self.new ≡ length self.old }
        ensures counted { OnOk result ((sequences : List (List Visited)) → AreSequences visits.now sequences
            → (rank : ℕ) (before after : Tally) → slice_get self.old rank ≡ Some before
            → slice_get self.new rank ≡ Some after
            → AreCounted (T.ranks table.now) aim weights.now rank visits.now sequences before after) }
    {
        if weights.is_empty() && self.ranks <= 256 && table.has_masks() {
            self.by_sets = true;
            count_all(table, lacking(aim), visits, &mut self.masked)
        } else {
            self.by_ranks = true;
            self.sums.add(table, aim, weights, visits)
        }
    }

    /// The ranks whose weight reaches the least. Those behind which what more follows weighs enough, too,
    /// have places for their stands in one run.
    pub fn reaching(
        &self,
        alloc: Global,
        least: u64,
        longer: u64,
    ) -> Result<Vec<NextRank>, NoMemory>
        ensures { IfOk result (λ found. AreNext least longer self.now found.items) }
    {
        if !self.by_sets {
            return self.sums.reaching(alloc, least, longer);
        }
        let threshold = if self.by_ranks { 0 } else { least.max(1) };
        let looked_for = self.masked.followed.reaching(threshold);
        reaching(
            alloc,
            &self.sums,
            &self.masked,
            self.ranks,
            &looked_for,
            least,
            longer,
        )
    }

    /// Forgets what was counted.
    pub fn clear(&mut self)
        ensures { self.new ≡ replicate (length self.old) empty_tally }
    {
        self.sums.clear();
        self.masked.clear();
        self.by_ranks = false;
        self.by_sets = false;
    }
}

/// What is needed and not yet seen.
#[inline]
fn lacking(aim: Aim) -> Option<u32>
    ensures { result ≡ lacking_of aim }
{
    if aim.seen { None } else { aim.need }
}
