//! Snapshots as bytes.

ghost use Rattle.std.specs.Prelude.{◌≡◌, ◌+◌, ◌<◌, ◌++◌, [], ◌∷◌, List, OnOk, OnErr, vec_len};
ghost use Rattle.std.specs.Vec.{vec_capacity};
ghost use Rattle.packed_snapshots.specs.declared.snapshot.PlainSnapshot.{PlainSnapshot};
ghost use Rattle.packed_snapshots.specs.Snapshots.{place_of, last_place, IsBehind};
ghost use Rattle.packed_snapshots.specs.Packed.{position_step, code_of, IsPacked};

use crate::numbers::push_number;
use crate::snapshot::{Place, PlainSnapshot};
use mine_model::NoMemory;

/// Appends the bytes of a snapshot behind those of others, of which the last was taken at this place, the
/// default place where there are none.
#[inline]
pub fn push(bytes: &mut Vec<u8>, before: Place, next: PlainSnapshot) -> Result<(), NoMemory>
    requires { IsBehind before (place_of next) }
    ensures ok { OnOk result ((list : List PlainSnapshot)
        → IsPacked list bytes.old.items → last_place list ≡ before
        → IsPacked (list ++ next ∷ []) bytes.new.items
        × (last_place (list ++ next ∷ []) ≡ place_of next)) }
    ensures err { OnErr result (bytes.new.items ≡ bytes.old.items) }
    // Want of memory comes only where there is no room for the most bytes that a snapshot takes.
    ensures full { OnErr result (vec_capacity bytes.old < vec_len bytes.old + 11) }
{
    let ahead = next.sequence - before.sequence;
    let step = position_step(before, next);
    let code = code_of(next);
    bytes.reserve(11)?;
    push_number(bytes, ahead);
    push_number(bytes, step as u32);
    push_number(bytes, code);
    Ok(())
}

/// Its position, less that before it where that is of the same sequence.
#[inline]
fn position_step(before: Place, next: PlainSnapshot) -> u16
    requires { IsBehind before (place_of next) }
    ensures { result ≡ position_step before next }
{
    if next.sequence == before.sequence {
        next.position - before.position
    } else {
        next.position
    }
}

/// Its state, with what it has seen.
#[inline]
fn code_of(next: PlainSnapshot) -> u32
    ensures { result ≡ code_of next }
{
    next.state as u32 * 2 + next.seen as u32
}
