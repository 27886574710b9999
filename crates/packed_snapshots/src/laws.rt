//! Laws over the definitions. Each is the contract of a function that does nothing.

ghost use Rattle.std.specs.Prelude.{◌≡◌, ℕ, List};
ghost use Rattle.packed_snapshots.specs.declared.snapshot.PlainSnapshot.{PlainSnapshot};
ghost use Rattle.packed_snapshots.specs.Snapshots.{start};
ghost use Rattle.packed_snapshots.specs.Packed.{IsPacked};
ghost use Rattle.packed_snapshots.specs.Ahead.{numbers_in, snapshots_behind};

/// Bytes are those of at most one list of snapshots.
pub fn equal_bytes_hold_equal_snapshots()
    ensures { (first second : List PlainSnapshot) (bytes : List ℕ)
        → IsPacked first bytes → IsPacked second bytes → first ≡ second }
{}

/// A list of snapshots has at most one row of bytes.
pub fn equal_snapshots_have_equal_bytes()
    ensures { (list : List PlainSnapshot) (first second : List ℕ)
        → IsPacked list first → IsPacked list second → first ≡ second }
{}

/// The walk over the bytes of snapshots gives the snapshots.
pub fn walks_give_what_was_packed()
    ensures { (list : List PlainSnapshot) (bytes : List ℕ)
        → IsPacked list bytes → snapshots_behind start (numbers_in bytes) ≡ list }
{}
