//! Ranks that are found once each, by marks.

ghost use Rattle.std.specs.Prelude.{◌≡◌, ℕ, ◌≤◌, ◌<◌, ◌⊎◌, ◌↔◌, [], length, All, Contains, IfOk, OnOk};
ghost use Rattle.pivot_partition.specs.Marks.{AreMarked};

use mine_model::NoMemory;
use std::alloc::Global;

/// No rank of so many has a mark.
pub(crate) fn no_marks(alloc: Global, count: usize) -> Result<Vec<bool>, NoMemory>
    ensures long { IfOk result (λ marks. length marks.items ≡ count) }
    ensures none { IfOk result (λ marks. AreMarked marks.items []) }
{
    Ok(vec![in alloc; false; count]?)
}

/// Marks the ranks from this one on, and appends those that had no mark.
pub(crate) fn mark_from(
    ranks: &[u32],
    least: u32,
    marks: &mut [bool],
    found: &mut Vec<u32>,
) -> Result<(), NoMemory>
    requires within { All (λ rank. rank < length marks.old) ranks.now }
    requires marked { AreMarked marks.old found.old.items }
    ensures long { length marks.new ≡ length marks.old }
    ensures marked { AreMarked marks.new found.new.items }
    ensures found { OnOk result ((rank : ℕ) → Contains found.new.items rank
        ↔ (Contains found.old.items rank ⊎ (Contains ranks.now rank × (least ≤ rank)))) }
{
    for rank in ranks {
        if *rank >= least {
            mark(*rank, marks, found)?;
        }
    }
    Ok(())
}

/// Marks a rank, and appends it where it had no mark.
fn mark(rank: u32, marks: &mut [bool], found: &mut Vec<u32>) -> Result<(), NoMemory>
    requires within { rank < length marks.old }
    requires marked { AreMarked marks.old found.old.items }
    ensures long { length marks.new ≡ length marks.old }
    ensures marked { AreMarked marks.new found.new.items }
    ensures found { OnOk result ((other : ℕ) → Contains found.new.items other
        ↔ (Contains found.old.items other ⊎ (other ≡ rank))) }
{
    if !marks[rank as usize] {
        found.push(rank)?;
        marks[rank as usize] = true;
    }
    Ok(())
}

/// Takes the marks of these ranks away.
pub(crate) fn unmark(found: &[u32], marks: &mut [bool])
    requires { AreMarked marks.old found.now }
    ensures long { length marks.new ≡ length marks.old }
    ensures none { AreMarked marks.new [] }
{
    for rank in found {
        marks[*rank as usize] = false;
    }
}
