//! The patterns that lists of ranks stand for.

ghost use Rattle.std.specs.Prelude.{◌≤◌, length, All, IfOk};
ghost use Rattle.mine_model.specs.Ranks.{AreRanked};

use super::item::Pattern;
use super::memory::NoMemory;
use super::ranks::Ranks;
use std::alloc::Global;

/// The pattern of the items with these ranks.
pub fn pattern_of(alloc: Global, ranks: &Ranks, list: &[u32]) -> Result<Pattern, NoMemory>
    requires { All (λ rank. (1 ≤ rank) × (rank ≤ length ranks.now.order)) list.now }
    ensures { IfOk result (λ pattern. AreRanked ranks.now.order pattern list.now) }
{
    let mut items = Vec::with_capacity(alloc, list.len())?;
    for rank in list {
        items.push(ranks.item(*rank))?;
    }
    Ok(Pattern::new(items))
}
