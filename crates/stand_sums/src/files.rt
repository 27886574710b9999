ghost use Rattle.std.specs.Prelude.{◌≡◌, ℕ, ◌<◌, List, [], Some, map, length, slice_get, slice_range, All, AllPairs, IfOk, OnOk, OnErr};
ghost use Rattle.place_walk.specs.declared.visit.Visit.{Visit as Visited};
ghost use Rattle.stand_sums.specs.Writings.{IsReadable};
ghost use Rattle.stand_sums.specs.Sequences.{AreSequences};
ghost use Rattle.stand_sums.specs.Sums.{AreLaidOut};
ghost use Rattle.stand_sums.specs.Files.{Filed, unfiled, with_more, HasRoom, IsFull};

use super::aim::Aim;
use super::filing::{file_all, run_end, shelves_for};
use super::next_rank::NextRank;
use super::outputs::Outputs;
use super::run::{Run, all_fit};
use super::shelf::Shelf;
use mine_model::NoMemory;
use place_walk::Visit;
use std::alloc::Global;
use std::marker::Model;

/// A worker's room for stands by rank. A contract sees up to which rank there is room, and what is filed of
/// each rank. The stands of all ranks lie in one run, those of each at its own places.
pub struct Files {
    // Where the shelf of each rank is. It counts only where that shelf has the rank, so none is cleared.
    places: Vec<u32>,
    shelves: Vec<Shelf>,
    run: Run,
    // Whether the last run that was begun came to hold a stand that does not fit into four bytes: the next
    // one will most likely, too.
    wide: bool,
}

// Written out, so that it is let go of by a call, and not part by part wherever one is.
impl Drop for Files {
    fn drop(self) {
        let Files {
            places: _,
            shelves: _,
            run: _,
            wide: _,
        } = self;
    }
}

impl Model for Files {
    ghost use Rattle.std.specs.Prelude.{length, map};
    ghost use Rattle.stand_sums.specs.Files.{FilesValue};
    ghost use Rattle.stand_sums.specs.Kept.{filed_in, AreFiles};

    ghost Value = { FilesValue };

    ghost view = { λ f. record {
      room = length f.places.items;
      filed = map (filed_in f.run.stands) f.shelves.items;
    } };

    ghost invariant = { λ f. AreFiles f.places.items f.shelves.items f.run.stands };
}

impl Files {
    /// Nothing is filed, with room for so many ranks, 0 among them.
    pub fn new(alloc: Global, ranks: usize) -> Result<Files, NoMemory>
        ensures { IfOk result (λ files. files ≡ record { room = ranks; filed = [] }) }
    {
        Ok(Files {
            places: vec![in alloc; 0; ranks]?,
            shelves: Vec::new(alloc),
            run: Run::new(alloc),
            wide: false,
        })
    }

    /// Begins a run with the places of these ranks.
    pub fn begin(&mut self, alloc: Global, next: &[NextRank]) -> Result<(), NoMemory>
        requires rising { AllPairs (λ low high. low.rank < high.rank) next.now }
        requires within { All (λ n. n.rank < self.old.room) next.now }
        requires places { (end : ℕ) × AreLaidOut 0 next.now end }
        ensures room { self.new.room ≡ self.old.room }
        ensures begun { OnOk result (self.new.filed ≡ map unfiled next.now) }
        ensures none { OnErr result (self.new.filed ≡ []) }
    {
        self.shelves.clear();
        let end = run_end(next);
        self.run = Run::with_places(alloc, end, !self.wide)?;
        shelves_for(next, &mut self.places, &mut self.shelves)
    }

    /// Files the visits of some whole sequences behind what was filed, for each rank that has places: behind
    /// each visit that writes the rank and goes on, where it stands. Memory is asked for only where a stand
    /// does not fit into four bytes and none before did.
    pub fn file<T: Outputs>(
        &mut self,
        alloc: Global,
        table: &T,
        aim: Aim,
        visits: &[Visit],
    ) -> Result<(), NoMemory>
        requires readable { All (IsReadable (T.ranks table.now) (T.CanAsk table.now) self.old.room)
            visits.now }
        requires room { All (HasRoom (T.ranks table.now) aim visits.now) self.old.filed }
        ensures room { self.new.room ≡ self.old.room }
        ensures filed { OnOk result ((sequences : List (List Visited)) → AreSequences visits.now sequences
            → self.new.filed ≡ map (with_more (T.ranks table.now) aim sequences) self.old.filed) }
    {
        if self.run.is_narrow() && !all_fit(visits) {
            self.run.widen(alloc)?;
            self.wide = true;
        }
        file_all(
            table,
            aim,
            visits,
            self.places.as_slice(),
            &mut self.shelves,
            &mut self.run,
        );
        Ok(())
    }

    /// The run, in which each rank has its stands at its places. Nothing is filed then.
    pub fn finish(&mut self, alloc: Global) -> Run
        requires full { All IsFull self.old.filed }
        ensures room { self.new.room ≡ self.old.room }
        ensures empty { self.new.filed ≡ [] }
        ensures stands { All (λ filed. slice_range result.stands filed.first filed.last ≡ filed.stands)
            self.old.filed }
    {
        self.shelves.clear();
        std::mem::replace(&mut self.run, Run::new(alloc))
    }
}
