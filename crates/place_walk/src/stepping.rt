//! One step of a set of states, at one place.

ghost use Rattle.std.specs.Prelude.{◌≡◌, ◌+◌, ◌≤◌, ◌<◌, ◌^◌, ◌++◌, List, length, map, All, IfOk, OnOk, slice_index};
ghost use Rattle.place_walk.specs.declared.visit.Visit.{Visit as Visited};
ghost use Rattle.place_walk.specs.Courses.{course_of};
ghost use Rattle.place_walk.specs.Ways.{IsStepOver, visit_of};

use super::visit::Visit;
use mine_model::NoMemory;
use walk_memo::{Action, Memo};
use walk_places::Places;

/// Goes over a place with the set: the number of the set behind it, and, appended, the visits.
#[inline]
pub(crate) fn step<const W: usize>(
    memo: &mut Memo<W>,
    places: &Places,
    place: u32,
    set: u32,
    visits: &mut Vec<Visit>,
) -> Result<u32, NoMemory>
    requires width { W ≤ 17 }
    requires few { length places.now < 2 ^ 32 }
    requires place { place < length places.now }
    requires moves { All (λ entry. entry.of < length memo.old.moves) places.now }
    requires set { set < length memo.old.sets }
    ensures rows { memo.new.rows ≡ memo.old.rows }
    ensures moves { memo.new.moves ≡ memo.old.moves }
    ensures number { IfOk result (λ next. next < length memo.new.sets) }
    ensures visits { IfOk result (λ next. (more : List Visited)
        × (visits.new.items ≡ visits.old.items ++ more)
        × IsStepOver (course_of memo.old places.now) place (slice_index memo.old.sets set)
        (slice_index memo.new.sets next) more) }
{
    let entry = places.get(place);
    let step = memo.step(set, entry.of)?;
    push_visits(memo.actions(step), place + 1, entry.kind, visits)?;
    Ok(step.next)
}

/// Appends the visits of these actions, none of them marked.
#[inline]
fn push_visits(
    actions: &[Action],
    place: u32,
    kind: u32,
    visits: &mut Vec<Visit>,
) -> Result<(), NoMemory>
    ensures { OnOk result (visits.new.items ≡ visits.old.items ++ map (visit_of place kind) actions.now) }
{
    for action in actions {
        visits.push(Visit {
            place,
            kind,
            action: *action,
            first: false,
        })?;
    }
    Ok(())
}
