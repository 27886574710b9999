//! Snapshots, and the stands of a prefix that waits, as bytes.
ghost use Rattle.std.specs.Prelude.{◌≡◌, List, IfOk, IsTrue};
ghost use Rattle.packed_snapshots.specs.declared.snapshot.PlainSnapshot.{PlainSnapshot};
ghost use Rattle.packed_snapshots.specs.Snapshots.{IsBehind};
ghost use Rattle.packed_snapshots.specs.Packed.{IsPacked};

use mine_model::NoMemory;
use packed_snapshots::{PackedSnapshots, Place, PlainSnapshot, push};
use place_walk::{Stand, Stands};
use std::alloc::Global;
use waiting_stands::{pack, unpack};

/// The sequence, the position and the state of a snapshot, and what it has seen.
type Numbers = (u32, u16, u16, bool);

fn snapshot(numbers: Numbers) -> PlainSnapshot {
    let (sequence, position, state, seen) = numbers;
    PlainSnapshot {
        sequence,
        position,
        state,
        seen,
    }
}

/// Whether the place is not behind the other.
fn is_behind(before: Place, place: Place) -> bool
    ensures { IsTrue result → IsBehind before place }
{
    if before.sequence == place.sequence {
        before.position <= place.position
    } else {
        before.sequence < place.sequence
    }
}

/// The bytes of the snapshots. One that is not behind the one before it is left out.
fn packed(alloc: Global, rows: &[Numbers]) -> Result<Vec<u8>, NoMemory>
    ensures { IfOk result (λ bytes. (list : List PlainSnapshot) × IsPacked list bytes.items) }
{
    let mut bytes = Vec::new(alloc);
    let mut before = Place::default();
    for numbers in rows {
        let next = snapshot(*numbers);
        if is_behind(before, next.place()) {
            push(&mut bytes, before, next)?;
            before = next.place();
        }
    }
    Ok(bytes)
}

/// Whether these are the snapshots of the rows.
fn are_rows(found: PackedSnapshots, rows: &[Numbers]) -> bool {
    let mut found = found;
    for numbers in rows {
        if found.next() != Some(snapshot(*numbers)) {
            return false;
        }
    }
    found.next().is_none()
}

/// Whether the rows take these bytes, which read as the rows.
fn is_packed(alloc: Global, rows: &[Numbers], want: &[u8]) -> Result<bool, NoMemory> {
    let bytes = packed(alloc, rows)?;
    Ok(bytes.as_slice() == want && are_rows(PackedSnapshots::new(bytes.as_slice()), rows))
}

const ROWS: [(&[Numbers], &[u8]); 5] = [
    (&[], &[]),
    (&[(300, 0, 0, false)], &[0xAC, 2, 0, 0]),
    (
        &[(0, 0, 0, false), (1, 0, 0, false), (4, 0, 0, false)],
        &[0, 0, 0, 1, 0, 0, 3, 0, 0],
    ),
    (
        &[
            (0, 1, 2, true),
            (1, 3, 2, true),
            (1, 5, 2, true),
            (4, 1, 2, true),
            (4, 2, 2, true),
        ],
        &[0, 1, 5, 1, 3, 5, 0, 2, 5, 3, 1, 5, 0, 1, 5],
    ),
    // The greatest numbers.
    (
        &[(0, 127, 63, true), (u32::MAX, u16::MAX, u16::MAX, true)],
        &[
            0, 127, 127, 255, 255, 255, 255, 15, 255, 255, 3, 255, 255, 7,
        ],
    ),
];

/// The number of the first rows that are packed or read otherwise.
fn first_wrong(alloc: Global) -> Result<Option<usize>, NoMemory> {
    for (number, (rows, want)) in ROWS.iter().enumerate() {
        if !is_packed(alloc, rows, want)? {
            return Ok(Some(number));
        }
    }
    Ok(None)
}

#[test]
fn takes_the_bytes_of_differences(rt: HostRuntime) {
    assert_eq!(rt; first_wrong(rt.alloc()), Ok(None));
}

fn stand(place: u32, state: u16, first: bool) -> Stand
    ensures { result ≡ record { place = place; state = state; first = first } }
{
    Stand {
        place,
        state,
        first,
    }
}

/// Whether stands of three sequences take these bytes, which read as the stands.
fn are_packed(alloc: Global, want: &[u8]) -> Result<bool, NoMemory> {
    let sequences = [2, 3, 300];
    let starts = [0, 10, 15];
    let stands = [
        stand(1, 2, true),
        stand(9, 70, false),
        stand(15, 0, true),
        stand(17, 2, false),
        stand(17, 3, false),
    ];
    let bytes = pack(alloc, &sequences, &starts, Stands::of(&stands), true)?;
    let back = unpack(alloc, &sequences, &starts, bytes.as_slice())?;
    Ok(bytes.as_slice() == want && back.as_slice() == stands.as_slice())
}

#[test]
fn packs_positions_of_sequences(rt: HostRuntime) {
    let want = [2, 1, 5, 0, 8, 141, 1, 170, 2, 0, 1, 0, 2, 5, 0, 0, 7];
    assert_eq!(rt; are_packed(rt.alloc(), &want), Ok(true));
}
