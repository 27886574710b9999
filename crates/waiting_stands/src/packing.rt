//! Stands as bytes.

ghost use Rattle.std.specs.Prelude.{◌≡◌, List, All, IfOk};
ghost use Rattle.packed_snapshots.specs.declared.snapshot.PlainSnapshot.{PlainSnapshot as Plain};
ghost use Rattle.packed_snapshots.specs.Packed.{IsPacked};
ghost use Rattle.waiting_stands.specs.Layouts.{IsLayout, AreStandsOf, HasSeen};

use crate::searching::last_up_to;
use mine_model::NoMemory;
use packed_snapshots::{Place, PlainSnapshot, push};
use place_walk::Stands;
use std::alloc::Global;

/// The bytes of the snapshots whose stands these are, in sequences with these numbers, of which the first
/// places are the starts: the place of an item is the start of its sequence and its position, one step.
pub fn pack(
    alloc: Global,
    sequences: &[u32],
    starts: &[u32],
    stands: Stands<'_>,
    seen: bool,
) -> Result<Vec<u8>, NoMemory>
    requires layout { IsLayout sequences.now starts.now }
    requires stands { (list : List Plain) × AreStandsOf sequences.now starts.now list stands }
    ensures { (list : List Plain) → AreStandsOf sequences.now starts.now list stands.entry
        → All (HasSeen seen) list → IfOk result (λ bytes. IsPacked list bytes.items) }
{
    let mut bytes = Vec::with_capacity(alloc, stands.len().saturating_mul(4).saturating_add(8))?;
    let mut before = Place::default();
    let mut grid = 0;
    for index in 0..stands.len() {
        let stand = stands.get(index);
        grid = last_up_to(starts, grid, stand.place);
        let next = PlainSnapshot {
            sequence: sequences[grid],
            position: (stand.place - starts[grid]) as u16,
            state: stand.state,
            seen,
        };
        push(&mut bytes, before, next)?;
        before = next.place();
    }
    bytes.shrink_to_fit();
    Ok(bytes)
}
