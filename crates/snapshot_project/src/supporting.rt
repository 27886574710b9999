ghost use Rattle.std.specs.Prelude.{ℕ, List};
ghost use Rattle.snapshot_project.specs.Extensions.{IsSupportOf};
ghost use Rattle.snapshot_project.specs.Stands.{IsProjected};

use super::part::Part;
use super::snapshots::Snapshots;

/// The weight of the sequences of the part that generate the prefix itself within the bound. Takes no memory.
pub fn support(part: &Part, snapshots: &Snapshots) -> u64
    ensures { (least : ℕ) (ranks : List ℕ) → IsProjected part.now least ranks snapshots.now
        → IsSupportOf part.now ranks result }
{
    // It was counted when the prefix was found.
    let _part = part;
    snapshots.support()
}
