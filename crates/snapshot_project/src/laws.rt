//! Laws of snapshots. Each is the contract of a function that does nothing.

ghost use Rattle.std.specs.Prelude.{◌≡◌, ◌↔◌, ℕ, List, [], ◌∷◌, ◌++◌, Contains};
ghost use Rattle.mining_job.specs.Problems.{items_of};
ghost use Rattle.sequence_grids.specs.Grids.{GridList};
ghost use Rattle.snapshot_project.specs.declared.snapshot.Snapshot.{Snapshot as Taken};
ghost use Rattle.snapshot_project.specs.Extensions.{GrowsBehind};
ghost use Rattle.snapshot_project.specs.Snapshots.{IsPart, IsOpen, SnapshotList, AreSnapshots};

/// A sequence has a snapshot of a prefix from which more can be written exactly where the prefix begins a
/// longer pattern of it within the bound. So what follows a prefix depends on no other snapshot.
pub fn open_snapshots_are_where_longer_patterns_begin()
    ensures { (part : GridList) (ranks : List ℕ) (list : SnapshotList) (are : AreSnapshots part ranks list)
        → IsPart part → (i : ℕ) → Contains part.sequences i
        → ((snapshot : Taken) × Contains list.snapshots snapshot × (snapshot.sequence ≡ i)
        × IsOpen part are.prefix snapshot)
        ↔ ((rank : ℕ) × GrowsBehind part (ranks ++ rank ∷ []) (items_of part.problem i)) }
{}

/// More can be written from each snapshot of the list.
pub fn kept_snapshots_are_open()
    ensures { (part : GridList) (ranks : List ℕ) (list : SnapshotList) (are : AreSnapshots part ranks list)
        → (snapshot : Taken) → Contains list.snapshots snapshot → IsOpen part are.prefix snapshot }
{}
