//! The ranks that kinds may write, as sets.

ghost use Rattle.std.specs.Prelude.{◌≡◌, ℕ, ◌+◌, ◌<◌, ◌↔◌, All, IfOk, IsTrue, length};
ghost use Rattle.fst_compile.specs.Rows.{IsSetOf};
ghost use Rattle.sequence_grids.specs.Kinds.{IsInside, row_at};
ghost use Rattle.place_records.specs.Ranks.{AreSets};

use mine_model::NoMemory;
use sequence_grids::Kinds;
use state_bits::StateSet;
use std::alloc::Global;

/// Whether no rank is above 255.
pub(crate) fn are_few(ranks: &[u32]) -> bool
    ensures { IsTrue result ↔ All (λ rank. rank < 256) ranks.now }
{
    ranks.iter().all(|rank| *rank < 256)
}

/// For each of the ends the set of the ranks between it and the next.
pub(crate) fn sets_of(alloc: Global, kinds: &Kinds) -> Result<Vec<StateSet<4>>, NoMemory>
    requires few { All (λ rank. rank < 256) kinds.now.ranks.items }
    ensures { IfOk result (λ sets. AreSets kinds.now sets.items) }
{
    let mut sets = Vec::with_capacity(alloc, kinds.ends.len())?;
    for row in 0..kinds.ends.len() {
        sets.push(set_of(row_from(kinds.ends.as_slice(), kinds.ranks.as_slice(), row)))?;
    }
    Ok(sets)
}

// The ranks between an end and the next.
fn row_from<'a>(ends: &[u32], ranks: &'a [u32], row: usize) -> &'a [u32]
    requires row { row < length ends.now }
    requires few { All (λ rank. rank < 256) ranks.now }
    ensures row { (base column : ℕ) → base + column ≡ row → IsInside ends.now ranks.now base column
        → result.now ≡ row_at ends.now ranks.now base column }
    ensures few { All (λ rank. rank < 256) result.now }
{
    let from = ends[row] as usize;
    let to = match ends.get(row + 1) {
        Some(end) => *end as usize,
        None => from,
    };
    if from <= to && to <= ranks.len() {
        &ranks[from..to]
    } else {
        &ranks[..0]
    }
}

// The set of these ranks.
fn set_of(ranks: &[u32]) -> StateSet<4>
    requires { All (λ rank. rank < 256) ranks.now }
    ensures { IsSetOf result ranks.now }
{
    let mut set = StateSet::new();
    for rank in ranks {
        set.add(*rank);
    }
    set
}
