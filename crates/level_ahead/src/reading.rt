//! What is written behind one visit.

ghost use Rattle.std.specs.Prelude.{◌≡◌, ℕ, ◌<◌, ◌≤◌, ◌^◌, ◌⊎◌, ◌↔◌, [], ◌∷◌, true, false, IsTrue, Some, length, All, IfSome, IfNone, IfOk, OnOk};
ghost use Rattle.state_bits.specs.Members.{Has};
ghost use Rattle.place_walk.specs.declared.visit.Visit.{Visit as Visited};
ghost use Rattle.place_walk.specs.Courses.{course_of};
ghost use Rattle.place_walk.specs.Visits.{AreVisits};
ghost use Rattle.stand_sums.specs.Writings.{opens, goes_on, follows};
ghost use Rattle.stand_sums.specs.Sequences.{HasOne};
ghost use Rattle.stand_sums.specs.Files.{stand_at};
ghost use Rattle.mask_sums.specs.Kept.{lacks};
ghost use Rattle.level_ahead.specs.Behind.{IsBehind, FollowsBehind, GoesOnBehind, CanLookBehind};
ghost use Rattle.level_ahead.specs.Kept.{HasGathered};

use super::following::follow_behind;
use super::gathered::Gathered;
use mask_sums::Masks;
use mine_model::NoMemory;
use place_walk::Visit;
use state_bits::StateSet;
use walk_memo::{Action, Memo};
use walk_places::Places;

/// Gathers what follows behind the visit, for each rank asked about that it writes, if the visit goes on,
/// where this rank is lacking or none. False where something goes on behind it.
pub(crate) fn read_visit<const W: usize, T: Masks>(
    memo: &mut Memo<W>,
    places: &Places,
    table: &T,
    lacking: Option<u32>,
    visit: Visit,
    asked: &StateSet<4>,
    gathered: &mut Gathered,
) -> Result<bool, NoMemory>
    requires width { W ≤ 17 }
    requires few { length places.now < 2 ^ 32 }
    requires moves { All (λ entry. entry.of < length memo.old.moves) places.now }
    requires kept { IsTrue (T.keeps table.now) }
    requires asked { T.CanAsk table.now visit.kind visit.action.state }
    requires few_ranks { IfSome lacking (λ need. need < 256) }
    requires apart { IfSome lacking (λ need. Has asked.now need → ⊥) }
    requires behind { (rank : ℕ) → Has asked.now rank
        → IsTrue (opens (T.ranks table.now) (lacks lacking) rank visit)
        → CanLookBehind (course_of memo.old places.now) (T.CanAsk table.now) visit }
    requires sets { (rank : ℕ) → Has asked.now rank → rank < length gathered.old.sets.items }
    ensures rows { memo.new.rows ≡ memo.old.rows }
    ensures moves { memo.new.moves ≡ memo.old.moves }
    ensures sets { length gathered.new.sets.items ≡ length gathered.old.sets.items }
    ensures touched { IfOk result (λ ended. (rank : ℕ) → Has gathered.new.touched rank
        → Has gathered.old.touched rank ⊎ Has asked.now rank) }
    ensures gathered { IfOk result (λ ended. IsTrue ended → (rank other : ℕ) → Has asked.now rank
        → HasGathered gathered.new rank other ↔ (HasGathered gathered.old rank other
        ⊎ FollowsBehind (course_of memo.old places.now) (T.ranks table.now) lacking rank other
        (visit ∷ []))) }
    ensures ended { IfOk result (λ ended. IsTrue ended → (rank : ℕ) → Has asked.now rank
        → GoesOnBehind (course_of memo.old places.now) (T.ranks table.now) lacking rank (visit ∷ [])
        → ⊥) }
    ensures goes { IfOk result (λ ended. ended ≡ false → (rank : ℕ) × Has asked.now rank
        × GoesOnBehind (course_of memo.old places.now) (T.ranks table.now) lacking rank (visit ∷ [])) }
{
    if !goes_with_others(lacking, visit.action) {
        return Ok(true);
    }
    let mut wanted = *table.mask(visit.kind, visit.action.state);
    wanted.intersect_with(asked);
    let _first = match first_of(&wanted) {
        Some(first) => first,
        None => return Ok(true),
    };
    match follow_behind(memo, places, table, lacking, visit)? {
        Some(next) => {
            gathered.gather(&wanted, &next);
            Ok(true)
        }
        None => Ok(false),
    }
}

/// Whether more can be written behind the ranks that are not lacking.
#[inline]
fn goes_with_others(lacking: Option<u32>, action: Action) -> bool
    ensures { (rank : ℕ) → (lacking ≡ Some rank → ⊥) → goes_on (lacks lacking) rank action ≡ result }
{
    match lacking {
        None => action.more,
        Some(_need) => action.unseen,
    }
}

/// A member of the set, if there is one.
#[inline]
fn first_of(set: &StateSet<4>) -> Option<u32>
    ensures some { IfSome result (λ rank. Has set.now rank) }
    ensures none { IfNone result ((rank : ℕ) → Has set.now rank → ⊥) }
{
    set.iter().next()
}
