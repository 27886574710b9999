ghost use Rattle.std.specs.Prelude.{◌≡◌, ℕ, ◌<◌, ◌≤◌, ◌^◌, true, false, IsTrue, List, [], Some, IfSome, map, filter, length, replicate, slice_get, Contains, All, IfOk, OnOk, ◌↔◌};
ghost use Rattle.state_bits.specs.Members.{Has};
ghost use Rattle.place_walk.specs.declared.visit.Visit.{Visit as Visited};
ghost use Rattle.place_walk.specs.Courses.{course_of};
ghost use Rattle.stand_sums.specs.Writings.{opens};
ghost use Rattle.stand_sums.specs.Sequences.{AreSequences};
ghost use Rattle.mask_sums.specs.Kept.{lacks};
ghost use Rattle.level_ahead.specs.Behind.{GoesOnBehind, CanLookBehind};
ghost use Rattle.level_ahead.specs.Counts.{Behind, is_asked, nothing_behind, asked_of, AreAdded, AreReaching};
ghost use Rattle.level_ahead.specs.Kept.{behinds};

use super::counting::count_all;
use super::gathered::Gathered;
use super::next_of::NextOf;
use mask_sums::Masks;
use member_counts::MemberCounts;
use mine_model::NoMemory;
use place_walk::Visit;
use stand_sums::NextRank;
use state_bits::StateSet;
use std::alloc::Global;
use std::marker::Model;
use walk_memo::Memo;
use walk_places::Places;

// How many ranks a set has room for.
const RANKS: usize = 256;

/// A worker's room for what follows behind each of some ranks. A contract sees the ranks that are asked
/// about, each with the counts of those behind it. It serves ranks of at most 255, and sequences that weigh
/// 1.
pub struct Ahead {
    ranks: Vec<u32>,
    asked: StateSet<4>,
    gathered: Gathered,
    // By rank. What is not asked about counts for nothing.
    counts: Vec<MemberCounts<4>>,
}

// Written out, so that it is let go of by a call, and not part by part wherever one is.
impl Drop for Ahead {
    fn drop(self) {
        let Ahead {
            ranks: _,
            asked: _,
            gathered: _,
            counts: _,
        } = self;
    }
}

impl Model for Ahead {
    ghost use Rattle.std.specs.Prelude.{List};
    ghost use Rattle.level_ahead.specs.Counts.{Behind};
    ghost use Rattle.level_ahead.specs.Kept.{behinds, IsRoom};

    ghost Value = { List Behind };

    ghost view = { λ a. behinds a.counts.items a.ranks.items };

    ghost invariant = { λ a. IsRoom a.ranks.items a.asked a.gathered.sets.items a.counts.items };
}

impl Ahead {
    /// No rank is asked about.
    pub fn new(alloc: Global) -> Ahead
        ensures { result ≡ [] }
    {
        Ahead {
            ranks: Vec::new(alloc),
            asked: StateSet::new(),
            gathered: Gathered::new(alloc),
            counts: Vec::new(alloc),
        }
    }

    /// Asks about those of these ranks that have places for stands, and not about that which is lacking, in
    /// their order. Where memory is wanting, about some of them.
    pub fn begin(
        &mut self,
        alloc: Global,
        lacking: Option<u32>,
        found: &[NextRank],
    ) -> Result<(), NoMemory>
        requires { All (λ next. next.rank < 256) found.now }
        ensures { OnOk result (self.new ≡ map nothing_behind (filter (is_asked lacking) found.now)) }
    {
        self.ranks.clear();
        self.asked.clear();
        make_room(alloc, &mut self.gathered.sets, &mut self.counts)?;
        begin_all(
            lacking,
            found,
            &mut self.ranks,
            &mut self.asked,
            self.counts.as_mut_slice(),
        )
    }

    /// Counts what follows behind each rank asked about in some whole sequences, which are those of visits of
    /// a walk with this memo over these places, behind a prefix that lacks a rank that is not asked about, or
    /// none. False where something goes on behind one of the ranks: then, and where memory is wanting,
    /// anything may have been counted.
    pub fn add<const W: usize, T: Masks>(
        &mut self,
        memo: &mut Memo<W>,
        places: &Places,
        table: &T,
        lacking: Option<u32>,
        visits: &[Visit],
    ) -> Result<bool, NoMemory>
        requires width { W ≤ 17 }
        requires few { length places.now < 2 ^ 32 }
        requires moves { All (λ entry. entry.of < length memo.old.moves) places.now }
        requires kept { IsTrue (T.keeps table.now) }
        requires asked { All (λ visit. T.CanAsk table.now visit.kind visit.action.state) visits.now }
        requires few_ranks { IfSome lacking (λ need. need < 256) }
        requires apart { IfSome lacking (λ need. Contains (asked_of self.old) need → ⊥) }
        requires behind { (visit : Visited) (rank : ℕ) → Contains visits.now visit
            → Contains (asked_of self.old) rank
            → IsTrue (opens (T.ranks table.now) (lacks lacking) rank visit)
            → CanLookBehind (course_of memo.old places.now) (T.CanAsk table.now) visit }
        ensures rows { memo.new.rows ≡ memo.old.rows }
        ensures moves { memo.new.moves ≡ memo.old.moves }
        ensures asked { asked_of self.new ≡ asked_of self.old }
        ensures counted { IfOk result (λ ended. IsTrue ended → (sequences : List (List Visited))
            → AreSequences visits.now sequences → (k : ℕ) (before after : Behind)
            → slice_get self.old k ≡ Some before → slice_get self.new k ≡ Some after
            → AreAdded (course_of memo.old places.now) (T.ranks table.now) lacking sequences before after) }
        ensures goes { IfOk result (λ ended. ended ≡ false → (rank : ℕ) × Contains (asked_of self.old) rank
            × GoesOnBehind (course_of memo.old places.now) (T.ranks table.now) lacking rank visits.now) }
    {
        count_all(
            memo,
            places,
            table,
            lacking,
            visits,
            &self.asked,
            &mut self.gathered,
            self.counts.as_mut_slice(),
        )
    }

    /// The ranks that follow behind that of the entry in so many sequences, rising.
    pub fn reaching(&self, alloc: Global, entry: usize, least: u64) -> Result<Vec<NextOf>, NoMemory>
        requires { entry < length self.now }
        ensures { IfOk result (λ found. (behind : Behind) → slice_get self.now entry ≡ Some behind
            → AreReaching least behind.counts found.items) }
    {
        let rank = self.ranks[entry];
        reaching(alloc, &self.counts[rank as usize], least)
    }
}

// The members whose counts reach the least, with their counts.
fn reaching(alloc: Global, counts: &MemberCounts<4>, least: u64) -> Result<Vec<NextOf>, NoMemory>
    ensures { IfOk result (λ found. AreReaching least counts.now found.items) }
{
    let mut found = Vec::new(alloc);
    for rank in counts.reaching(least).iter() {
        found.push(NextOf {
            rank,
            count: counts.count(rank),
        })?;
    }
    Ok(found)
}

/// Whether the rank is asked about: it has places, and is not that which is lacking.
pub fn asks_about(lacking: Option<u32>, next: &NextRank) -> bool
    ensures { result ≡ is_asked lacking next.now }
{
    match lacking {
        None => next.first < next.last,
        Some(need) => next.first < next.last && next.rank != need,
    }
}

// Notes those of these ranks that are asked about, behind which nothing was counted.
fn begin_all(
    lacking: Option<u32>,
    found: &[NextRank],
    ranks: &mut Vec<u32>,
    asked: &mut StateSet<4>,
    counts: &mut [MemberCounts<4>],
) -> Result<(), NoMemory>
    requires few { All (λ next. next.rank < 256) found.now }
    requires no_ranks { ranks.old.items ≡ [] }
    requires none_asked { asked.old ≡ 0 }
    requires room { 256 ≤ length counts.old }
    ensures room { length counts.new ≡ length counts.old }
    ensures asked { (rank : ℕ) → Has asked.new rank ↔ Contains ranks.new.items rank }
    ensures few { (rank : ℕ) → Has asked.new rank → rank < 256 }
    ensures begun { OnOk result (behinds counts.new ranks.new.items
        ≡ map nothing_behind (filter (is_asked lacking) found.now)) }
{
    for next in found {
        if asks_about(lacking, next) {
            ranks.push(next.rank)?;
            asked.add(next.rank);
            counts[next.rank as usize].clear();
        }
    }
    Ok(())
}

// Makes room for all ranks.
fn make_room(
    alloc: Global,
    sets: &mut Vec<StateSet<4>>,
    counts: &mut Vec<MemberCounts<4>>,
) -> Result<(), NoMemory>
    ensures sets { OnOk result (256 ≤ length sets.new.items) }
    ensures counts { OnOk result (256 ≤ length counts.new.items) }
{
    'sets: while sets.len() < RANKS {
        sets.push(StateSet::new())?;
    }
    'counts: while counts.len() < RANKS {
        counts.push(MemberCounts::new(alloc))?;
    }
    Ok(())
}
