ghost use Rattle.std.specs.Prelude.{◌≡◌, ◌≢◌, ℕ, ◌<◌, ◌⊎◌, ◌↔◌, [], AllPairs, Contains, OnOk, OnErr};
ghost use Rattle.pivot_partition.specs.Pivots.{IsGreaterOf, HasUpTo};

use mine_model::NoMemory;

/// Makes of the first list the greater ones of each pair of a number of the first and one of the second.
/// These are the numbers of either that have one of each list up to them.
pub fn merge_pivots(u: &mut Vec<u32>, v: &[u32]) -> Result<(), NoMemory>
    requires first { AllPairs (λ low high. low < high) u.old.items }
    requires second { AllPairs (λ low high. low < high) v.now }
    requires some { u.old.items ≢ [] }
    requires other { v.now ≢ [] }
    ensures rising { OnOk result (AllPairs (λ low high. low < high) u.new.items) }
    ensures greater { OnOk result ((w : ℕ) → Contains u.new.items w ↔ IsGreaterOf u.old.items v.now w) }
    ensures either { OnOk result ((w : ℕ) → Contains u.new.items w
        ↔ ((Contains u.old.items w ⊎ Contains v.now w) × HasUpTo u.old.items w × HasUpTo v.now w)) }
    ensures refused { OnErr result (u.new.items ≡ u.old.items) }
{
    let least = u[0].max(v[0]);
    u.extend_from_slice(v)?;
    u.sort_unstable();
    u.dedup();
    u.retain(|rank| *rank >= least);
    Ok(())
}
