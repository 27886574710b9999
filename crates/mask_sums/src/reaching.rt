//! The ranks whose sums reach a threshold, where a part was counted by sets.

ghost use Rattle.std.specs.Prelude.{◌≡◌, ℕ, ◌+◌, ◌≤◌, ◌<◌, Some, length, slice_get, IfOk};
ghost use Rattle.state_bits.specs.Members.{Has};
ghost use Rattle.stand_sums.specs.Sums.{Tally, AreNext};
ghost use Rattle.mask_sums.specs.Sets.{masked_at, plus, together};
ghost use Rattle.mask_sums.specs.Kept.{whole, IsNextOrNone};

use super::masked::Masked;
use mine_model::NoMemory;
use stand_sums::{NextRank, Sums};
use state_bits::StateSet;
use std::alloc::Global;

/// Those of the ranks whose weight reaches the least, rising, with the places of their stands. All of them
/// are among those that are looked for.
pub(crate) fn reaching(
    alloc: Global,
    sums: &Sums,
    masked: &Masked,
    ranks: usize,
    looked_for: &StateSet<4>,
    least: u64,
    longer: u64,
) -> Result<Vec<NextRank>, NoMemory>
    requires ranks { ranks ≡ length sums.now }
    requires few { ranks ≤ 256 }
    requires looked_for { (rank : ℕ) (tally : Tally) → 1 ≤ least
        → slice_get (together masked.now 0 sums.now) rank ≡ Some tally
        → least ≤ tally.weight → Has looked_for.now rank }
    ensures { IfOk result (λ found. AreNext least longer (together masked.now 0 sums.now) found.items) }
{
    let mut found = Vec::new(alloc);
    let mut end: usize = 0;
    for rank in 0..ranks as u32 {
        if looked_for.has(rank) {
            if let Some(next) = next_of(sums, masked, rank, least, longer, end)? {
                end = next.last;
                found.push(next)?;
            }
        }
    }
    Ok(found)
}

/// The rank with its places from here on, where its weight reaches the least.
fn next_of(
    sums: &Sums,
    masked: &Masked,
    rank: u32,
    least: u64,
    longer: u64,
    from: usize,
) -> Result<Option<NextRank>, NoMemory>
    requires ranks { rank < length sums.now }
    requires few { rank < 256 }
    ensures { IfOk result (λ next. (tally : Tally) → slice_get sums.now rank ≡ Some tally
        → IsNextOrNone least longer rank from (plus tally (masked_at masked.now rank)) next) }
{
    let next = all_of(sums, masked, rank)?;
    if next.weight < least {
        return Ok(None);
    }
    let stands = if next.longer >= longer { next.last } else { 0 };
    let last = from.checked_add(stands).ok_or(NoMemory)?;
    Ok(Some(NextRank {
        first: from,
        last,
        ..next
    }))
}

/// What was counted of the rank either way, with places from 0 on for all its stands.
fn all_of(sums: &Sums, masked: &Masked, rank: u32) -> Result<NextRank, NoMemory>
    requires ranks { rank < length sums.now }
    requires few { rank < 256 }
    ensures { IfOk result (λ next. (tally : Tally) → slice_get sums.now rank ≡ Some tally
        → next ≡ whole rank (plus tally (masked_at masked.now rank))) }
{
    let next = sums.told(rank);
    Ok(NextRank {
        rank,
        weight: sum(next.weight, masked.followed.count(rank))?,
        support: sum(next.support, masked.ended.count(rank))?,
        longer: sum(next.longer, masked.opened.count(rank))?,
        first: 0,
        last: sum(next.last as u64, masked.stands.count(rank))? as usize,
    })
}

/// Both together.
#[inline]
fn sum(one: u64, other: u64) -> Result<u64, NoMemory>
    ensures { IfOk result (λ sum. sum ≡ one + other) }
{
    one.checked_add(other).ok_or(NoMemory)
}
