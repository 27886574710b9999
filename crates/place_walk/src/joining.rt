//! The stands before a place.

ghost use Rattle.std.specs.Prelude.{◌≡◌, ℕ, ◌≤◌, ◌<◌, ◌⊎◌, ◌↔◌, length, All, Some, IfSome, IfNone, IfOk, slice_get, slice_index};
ghost use Rattle.state_bits.specs.Members.{Has};
ghost use Rattle.place_walk.specs.declared.stand.Stand.{Stand as Standing};
ghost use Rattle.place_walk.specs.Ways.{AreTaken, Joins};

use super::stands::Stands;
use mine_model::NoMemory;
use walk_memo::Memo;

/// The number of a set with the states of stands, and how many stands were taken.
#[derive(Clone, Copy, Debug)]
pub(crate) struct Joined {
    pub(crate) set: u32,
    pub(crate) taken: usize,
}

/// Adds to the set the states of the next stands up to the place.
#[inline]
pub(crate) fn join<const W: usize>(
    memo: &mut Memo<W>,
    group: &Stands,
    taken: usize,
    place: u32,
    set: u32,
) -> Result<Joined, NoMemory>
    requires width { W ≤ 17 }
    requires taken { taken ≤ length group.now }
    requires set { set < length memo.old.sets }
    requires states { All (λ stand. stand.state < length memo.old.rows) group.now }
    ensures rows { memo.new.rows ≡ memo.old.rows }
    ensures moves { memo.new.moves ≡ memo.old.moves }
    ensures number { IfOk result (λ joined. joined.set < length memo.new.sets) }
    ensures taken { IfOk result (λ joined. AreTaken group.now taken place joined.taken) }
    ensures states { IfOk result (λ joined. (state : ℕ) → Has (slice_index memo.new.sets joined.set) state
        ↔ (Has (slice_index memo.old.sets set) state ⊎ Joins group.now taken joined.taken state)) }
{
    // For the proof alone: all indices are below a number of this type.
    let _count = group.len();
    let mut number = set;
    let mut next = taken;
    'stands: while let Some(state) = state_at(group, next, place) {
        number = memo.join(number, state)?;
        next += 1;
    }
    Ok(Joined {
        set: number,
        taken: next,
    })
}

/// The state of a stand, where there is one that is before the place or an earlier one.
#[inline]
fn state_at(group: &Stands, index: usize, place: u32) -> Option<u32>
    ensures some { IfSome result (λ state. (stand : Standing) × (slice_get group.now index ≡ Some stand)
        × (stand.place ≤ place) × (stand.state ≡ state)) }
    ensures none { IfNone result ((stand : Standing) → slice_get group.now index ≡ Some stand
        → place < stand.place) }
{
    if index >= group.len() {
        return None;
    }
    let stand = group.get(index);
    if stand.place <= place {
        Some(u32::from(stand.state))
    } else {
        None
    }
}
