//! The frequencies of items among some of the sequences.

ghost use Rattle.std.specs.Prelude.{◌≡◌, ℕ, ◌+◌, ◌^◌, ◌≤◌, ◌<◌, ◌⊎◌, ◌↔◌, length, slice_index, All, Contains, IfOk};
ghost use Rattle.std.specs.List.{AllByRecursion, slice_range};
ghost use Rattle.mine_model.specs.declared.item.Item.{Item};
ghost use Rattle.mine_model.specs.Support.{HoldsUnder};
ghost use Rattle.mine_model.specs.Ranks.{AreFrequencies};
ghost use Rattle.frequency_list.specs.Tallies.{owned, AddsWeight};

use mine_model::{Db, Hierarchy, Item, NoMemory};
use std::alloc::Global;

/// The frequency of each item among the sequences with these numbers, the last not included.
///
/// An item's stamp is the number of the last sequence that held it or an item below it, counted from 1: so no
/// set is made for a sequence, and none is cleared.
pub(crate) fn tally(
    alloc: Global,
    hierarchy: &Hierarchy,
    db: &Db,
    from: u32,
    to: u32,
) -> Result<Vec<u64>, NoMemory>
    requires rises { from ≤ to }
    requires within { to ≤ length db.now }
    requires items { AllByRecursion
        (λ sequence. AllByRecursion (λ t. t.0 < hierarchy.now.items) sequence.items) db.now }
    ensures length { IfOk result (λ sums. length sums.items ≡ hierarchy.now.items) }
    ensures sums { IfOk result (λ sums.
        AreFrequencies hierarchy.now.links (slice_range db.now from to) sums.items) }
{
    // For the proof alone: no sequence weighs more than its limit, and there are not too many, so no sum
    // wraps.
    let _sequences = db.sequences();
    let items = hierarchy.items() as usize;
    let mut sums = vec![in alloc; 0u64; items]?;
    let mut stamps = vec![in alloc; 0u32; items]?;
    for number in from..to {
        add_sequence(
            hierarchy,
            db.sequence(number),
            db.weight(number),
            number + 1,
            sums.as_mut_slice(),
            stamps.as_mut_slice(),
        );
    }
    Ok(sums)
}

/// Adds the weight of a sequence to the sum of each of its items and of each item above one of them.
///
/// Where an item has the stamp already, so has each item above it.
fn add_sequence(
    hierarchy: &Hierarchy,
    items: &[Item],
    weight: u64,
    stamp: u32,
    sums: &mut [u64],
    stamps: &mut [u32],
)
    requires items { All (λ t. t.0 < hierarchy.now.items) items.now }
    requires sums { length sums.old ≡ hierarchy.now.items }
    requires stamps { length stamps.old ≡ hierarchy.now.items }
    requires new { (k : ℕ) → slice_index stamps.old k < stamp }
    requires room { (k : ℕ) → slice_index sums.old k + weight < 2 ^ 64 }
    ensures added { (w : Item) → AddsWeight (HoldsUnder hierarchy.now.links w items.now) weight
        (slice_index sums.old w.0) (slice_index sums.new w.0) }
    ensures stamped { (k : ℕ) → slice_index stamps.new k ≤ stamp }
{
    for t in items {
        if stamps[t.0 as usize] != stamp {
            add_weight(hierarchy.ancestors(*t), weight, stamp, sums, stamps);
        }
    }
}

/// Stamps items, and adds the weight to the sum of each that did not have the stamp yet.
fn add_weight(items: &[Item], weight: u64, stamp: u32, sums: &mut [u64], stamps: &mut [u32])
    requires items { All (λ w. w.0 < length sums.old) items.now }
    requires stamps { length stamps.old ≡ length sums.old }
    requires room { (k : ℕ) → owned stamp weight sums.old stamps.old k < 2 ^ 64 }
    ensures owned { (k : ℕ) → owned stamp weight sums.new stamps.new k
        ≡ owned stamp weight sums.old stamps.old k }
    ensures stamped { (w : Item) → (slice_index stamps.new w.0 ≡ stamp)
        ↔ ((slice_index stamps.old w.0 ≡ stamp) ⊎ Contains items.now w) }
    ensures others { (k : ℕ) → (slice_index stamps.new k ≡ stamp)
        ⊎ (slice_index stamps.new k ≡ slice_index stamps.old k) }
{
    for w in items {
        let number = w.0 as usize;
        if stamps[number] != stamp {
            stamps[number] = stamp;
            sums[number] += weight;
        }
    }
}
