//! Bytes as snapshots.

ghost use Rattle.std.specs.Prelude.{◌≡◌, ◌+◌, ◌<◌, ◌^◌, List};
ghost use Rattle.std.specs.Iterator.{YieldsFirst, item_count};
ghost use Rattle.packed_snapshots.specs.declared.snapshot.PlainSnapshot.{PlainSnapshot as Plain};
ghost use Rattle.packed_snapshots.specs.Packed.{IsPacked};
ghost use Rattle.packed_snapshots.specs.Ahead.{snapshot_of};

use crate::numbers::take_number;
use crate::snapshot::{Place, PlainSnapshot};
use std::marker::Model;

/// The snapshots that are still to come of packed ones, in their order. A contract sees the list of them.
#[derive(Drop)]
pub struct PackedSnapshots<'a> {
    bytes: &'a [u8],
    before: Place,
}

impl<'a> Model for PackedSnapshots<'a> {
    ghost use Rattle.std.specs.Prelude.{List};
    ghost use Rattle.packed_snapshots.specs.declared.snapshot.PlainSnapshot.{PlainSnapshot as Plain};

    ghost Value = { List Plain };

    ghost use Rattle.packed_snapshots.specs.Packed.{IsPackedBehind};
    ghost use Rattle.packed_snapshots.specs.Ahead.{numbers_in, snapshots_behind};

    ghost view = { λ s. snapshots_behind s.before (numbers_in s.bytes.now) };

    ghost invariant = { λ s. (list : List Plain) × IsPackedBehind s.before list s.bytes.now };
}

impl<'a> PackedSnapshots<'a> {
    /// The snapshots of these bytes. Takes no memory.
    pub fn new(bytes: &'a [u8]) -> PackedSnapshots<'a>
        requires { (list : List Plain) × IsPacked list bytes.now }
        ensures { (list : List Plain) → IsPacked list bytes.now → result ≡ list }
    {
        PackedSnapshots {
            bytes,
            before: Place::default(),
        }
    }
}

impl Iterator for PackedSnapshots<'_> {
    type Item = PlainSnapshot;

    ghost next_gives = { YieldsFirst (λ s. s) };

    ghost remaining = { item_count (λ s. s) };

    #[inline]
    fn next(&mut self) -> Option<PlainSnapshot> {
        if self.bytes.is_empty() {
            return None;
        }
        let (ahead, bytes) = take_number(self.bytes);
        let (step, bytes) = take_number(bytes);
        let (code, bytes) = take_number(bytes);
        let next = snapshot_of(self.before, ahead, step, code);
        self.before = next.place();
        self.bytes = bytes;
        Some(next)
    }
}

/// The snapshot of its three numbers.
#[inline]
fn snapshot_of(before: Place, ahead: u32, step: u32, code: u32) -> PlainSnapshot
    requires sequence { before.sequence + ahead < 2 ^ 32 }
    requires position { (snapshot_of before ahead step code).position < 2 ^ 16 }
    requires state { code < 2 ^ 17 }
    ensures { result ≡ snapshot_of before ahead step code }
{
    let position = if ahead == 0 {
        before.position + step as u16
    } else {
        step as u16
    };
    PlainSnapshot {
        sequence: before.sequence + ahead,
        position,
        state: (code / 2) as u16,
        seen: code % 2 == 1,
    }
}
