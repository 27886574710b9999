ghost use Rattle.std.specs.Prelude.{◌≡◌, ◌≤◌, ℕ, [], List, None, Some, IfSome, IfNone, length, map, slice_range};
ghost use Rattle.std.specs.Arc.{arc_value};
ghost use Rattle.packed_snapshots.specs.declared.snapshot.PlainSnapshot.{PlainSnapshot as Plain};
ghost use Rattle.packed_snapshots.specs.Packed.{IsPacked};
ghost use Rattle.snapshot_project.specs.Ahead.{next_of};

use level_ahead::NextOf;
use packed_snapshots::PackedSnapshots;
use place_walk::Stands;
use stand_sums::Run;
use std::marker::Model;
use std::sync::Arc;

/// The stands from one place of a run to before the other.
#[derive(Drop)]
pub(crate) struct Piece {
    pub(crate) run: Arc<Run>,
    pub(crate) first: usize,
    pub(crate) last: usize,
}

/// What is kept of the snapshots of a prefix.
pub(crate) enum Kept {
    /// Where its paths stand. The kids of one node are in one run.
    Standing(Piece),
    /// The ranks that follow, where these are known.
    Told(Vec<NextOf>),
    /// The bytes of its snapshots.
    Packed(Vec<u8>),
}

// Written out, so that it is let go of by a call, and not part by part wherever one is.
impl Drop for Kept {
    fn drop(self) {
        match self {
            Kept::Standing(_piece) => {}
            Kept::Told(_next) => {}
            Kept::Packed(_bytes) => {}
        }
    }
}

/// What is kept of a prefix in a part: whether it holds what is needed, what it weighs by itself, and where
/// its paths stand from which more can be written; or, in place of these, what follows it, or the bytes of
/// its snapshots. The stands of the kids of one node are one list, of which each has its own piece; the bytes
/// are its own.
pub struct Snapshots {
    seen: bool,
    support: u64,
    kept: Kept,
}

// Written out, so that it is let go of by a call, and not part by part wherever one is.
impl Drop for Snapshots {
    fn drop(self) {
        let Snapshots {
            seen: _,
            support: _,
            kept: _,
        } = self;
    }
}

impl Model for Snapshots {
    ghost use Rattle.snapshot_project.specs.Stands.{StandList};
    ghost use Rattle.snapshot_project.specs.Kept.{stands_in, next_in, bytes_in, IsKeptWell};

    ghost Value = { StandList };

    ghost view = { λ s. record {
      seen = s.seen;
      support = s.support;
      stands = stands_in s.kept;
      next = next_in s.kept;
      bytes = bytes_in s.kept;
    } };

    ghost invariant = { λ s. IsKeptWell s.kept };
}

impl Snapshots {
    /// The stands from one place of the run to before the other.
    pub(crate) fn new(
        seen: bool,
        support: u64,
        run: Arc<Run>,
        first: usize,
        last: usize,
    ) -> Snapshots
        requires ordered { first ≤ last }
        requires within { last ≤ length (arc_value run).stands }
        ensures { result ≡ record {
          seen = seen;
          support = support;
          stands = slice_range (arc_value run).stands first last;
          next = None;
          bytes = None;
        } }
    {
        Snapshots {
            seen,
            support,
            kept: Kept::Standing(Piece { run, first, last }),
        }
    }

    /// What follows, and no stands.
    pub(crate) fn told(seen: bool, support: u64, next: Vec<NextOf>) -> Snapshots
        ensures { result ≡ record {
          seen = seen;
          support = support;
          stands = [];
          next = Some (map next_of next.items);
          bytes = None;
        } }
    {
        Snapshots {
            seen,
            support,
            kept: Kept::Told(next),
        }
    }

    /// The bytes of its snapshots, and no stands.
    pub(crate) fn packed(seen: bool, support: u64, bytes: Vec<u8>) -> Snapshots
        requires { (list : List Plain) × IsPacked list bytes.items }
        ensures { result ≡ record {
          seen = seen;
          support = support;
          stands = [];
          next = None;
          bytes = Some bytes.items;
        } }
    {
        Snapshots {
            seen,
            support,
            kept: Kept::Packed(bytes),
        }
    }

    /// What the prefix weighs by itself.
    pub(crate) fn support(&self) -> u64
        ensures { result ≡ self.now.support }
    {
        self.support
    }

    /// Whether the prefix holds what is needed.
    pub(crate) fn seen(&self) -> bool
        ensures { result ≡ self.now.seen }
    {
        self.seen
    }

    /// The stands.
    pub(crate) fn stands(&self) -> Stands<'_>
        ensures { result ≡ self.now.stands }
    {
        match &self.kept {
            Kept::Standing(piece) => piece.run.piece(piece.first, piece.last),
            Kept::Told(_next) => Stands::of(&[]),
            Kept::Packed(_bytes) => Stands::of(&[]),
        }
    }

    /// What follows the prefix, where it is known.
    pub(crate) fn next(&self) -> Option<&[NextOf]>
        ensures some { IfSome result (λ next. self.now.next ≡ Some (map next_of next.now)) }
        ensures none { IfNone result (self.now.next ≡ None) }
    {
        match &self.kept {
            Kept::Told(next) => Some(next.as_slice()),
            _ => None,
        }
    }

    /// The bytes of its snapshots, where it is kept as bytes. Takes no memory.
    pub fn bytes(&self) -> Option<&[u8]>
        ensures some { IfSome result (λ bytes. self.now.bytes ≡ Some bytes.now) }
        ensures none { IfNone result (self.now.bytes ≡ None) }
    {
        match &self.kept {
            Kept::Packed(bytes) => Some(bytes.as_slice()),
            _ => None,
        }
    }

    /// Its snapshots, one after another, where it is kept as bytes. Takes no memory.
    pub fn iter(&self) -> Option<PackedSnapshots<'_>>
        ensures some { IfSome result (λ packed. (bytes : List ℕ) × (self.now.bytes ≡ Some bytes)
            × ((list : List Plain) → IsPacked list bytes → packed ≡ list)) }
        ensures none { IfNone result (self.now.bytes ≡ None) }
    {
        match &self.kept {
            Kept::Packed(bytes) => Some(PackedSnapshots::new(bytes.as_slice())),
            _ => None,
        }
    }
}
