//! The frequencies of items, counted by several threads, and the ranks of the frequent ones.
#![tactic(auto)]

ghost use Rattle.std.specs.Prelude.{◌≡◌, ◌≤◌, ◌<◌, length, IfOk};
ghost use Rattle.std.specs.List.{AllByRecursion};
ghost use Rattle.mine_model.specs.Ranks.{AreRanks, AreTiesByName};

mod pieces;
mod ranking;
mod tally;

use item_names::Names;
use mine_model::{Db, Hierarchy, NoMemory, Ranks};
use pieces::frequencies;
use ranking::ranked;
use std::alloc::Global;
use std::thread::Threads;

/// The frequency of each item of the hierarchy, and the ranks of those whose frequency reaches the threshold:
/// by falling frequency, and those of one frequency by their names in byte order, a proper prefix first.
///
/// The sequences are cut into as many pieces as threads may be used, at most 16, and each piece is counted
/// by a thread of its own; a few sequences are counted by the caller alone, and all where one may be used.
pub fn count<R: Threads + Sync>(
    rt: &R,
    alloc: Global,
    hierarchy: &Hierarchy,
    db: &Db,
    threshold: u64,
    names: &Names,
    threads: u32,
) -> Result<Ranks, NoMemory>
    requires threshold { 1 ≤ threshold }
    requires items { AllByRecursion
        (λ sequence. AllByRecursion (λ t. t.0 < hierarchy.now.items) sequence.items) db.now }
    requires named { hierarchy.now.items ≤ length names.now }
    ensures items { IfOk result (λ ranks. length ranks.frequencies ≡ hierarchy.now.items) }
    ensures ranks { IfOk result (λ ranks. AreRanks hierarchy.now.links db.now threshold ranks) }
    ensures ties { IfOk result (λ ranks. AreTiesByName names.now ranks) }
{
    // For the proof alone: no link leads out of the items, so what is no item of the hierarchy is not
    // frequent.
    let _items = hierarchy.items();
    let frequencies = frequencies(rt, alloc, hierarchy, db, threads)?;
    let order = ranked(alloc, frequencies.as_slice(), threshold, names)?;
    Ranks::new(alloc, order, frequencies)
}
