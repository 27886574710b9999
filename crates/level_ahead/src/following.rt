//! The ranks that follow where a path stands, found on the way: no visit is kept.

ghost use Rattle.std.specs.Prelude.{Some, None, ◌≡◌, ℕ, ◌<◌, ◌≤◌, ◌^◌, ◌⊎◌, ◌↔◌, [], ◌∷◌, List, true, false, IsTrue, length, map, slice_index, All, IfSome, IfNone, IfOk};
ghost use Rattle.place_walk.specs.declared.visit.Visit.{Visit as Visited};
ghost use Rattle.place_walk.specs.Courses.{course_of};
ghost use Rattle.place_walk.specs.Visits.{AreVisits};
ghost use Rattle.place_walk.specs.Ways.{IsStepOver, visit_of};
ghost use Rattle.stand_sums.specs.Sequences.{HasOne};
ghost use Rattle.stand_sums.specs.Files.{stand_at};
ghost use Rattle.level_ahead.specs.Behind.{IsBehind, goes_further};
ghost use Rattle.level_ahead.specs.Following.{HasEnded};

use mask_sums::Masks;
use mine_model::NoMemory;
use place_walk::Visit;
use state_bits::StateSet;
use walk_memo::{Action, Memo};
use walk_places::Places;

/// The ranks that follow where the path stands behind the visit, unless something goes on there, where this
/// rank is lacking or none.
pub(crate) fn follow_behind<const W: usize, T: Masks>(
    memo: &mut Memo<W>,
    places: &Places,
    table: &T,
    lacking: Option<u32>,
    visit: Visit,
) -> Result<Option<StateSet<4>>, NoMemory>
    requires width { W ≤ 17 }
    requires few { length places.now < 2 ^ 32 }
    requires moves { All (λ entry. entry.of < length memo.old.moves) places.now }
    requires kept { IsTrue (T.keeps table.now) }
    requires few_ranks { IfSome lacking (λ need. need < 256) }
    requires place { visit.place < length places.now }
    requires state { visit.action.state < length memo.old.rows }
    requires asked { (next : Visited) → IsBehind (course_of memo.old places.now) visit next
        → T.CanAsk table.now next.kind next.action.state }
    ensures rows { memo.new.rows ≡ memo.old.rows }
    ensures moves { memo.new.moves ≡ memo.old.moves }
    ensures some { IfOk result (λ found. IfSome found (λ set. (room : List Visited)
        × AreVisits (course_of memo.old places.now) (stand_at true visit ∷ []) room
        × HasEnded (T.ranks table.now) lacking room 0 set)) }
    ensures none { IfOk result (λ found. IfNone found ((next : Visited)
        × IsBehind (course_of memo.old places.now) visit next
        × IsTrue (goes_further (T.ranks table.now) lacking next))) }
{
    let mut ranks = StateSet::new();
    let start = memo.join(memo.empty(), u32::from(visit.action.state))?;
    let mut set = match read_place(memo, places, table, lacking, visit.place, start, &mut ranks)? {
        Some(next) => next,
        None => return Ok(None),
    };
    let mut place = visit.place + 1;
    let end = places.len();
    'places: while !memo.is_empty(set) && (place as usize) < end {
        match read_place(memo, places, table, lacking, place, set, &mut ranks)? {
            Some(next) => set = next,
            None => return Ok(None),
        }
        place += 1;
    }
    Ok(Some(ranks))
}

/// Goes over a place with the set: the number of the set behind it, and, added, the ranks that end there,
/// unless one of them goes on.
#[inline]
fn read_place<const W: usize, T: Masks>(
    memo: &mut Memo<W>,
    places: &Places,
    table: &T,
    lacking: Option<u32>,
    place: u32,
    set: u32,
    ranks: &mut StateSet<4>,
) -> Result<Option<u32>, NoMemory>
    requires width { W ≤ 17 }
    requires place { place < length places.now }
    requires moves { All (λ entry. entry.of < length memo.old.moves) places.now }
    requires kept { IsTrue (T.keeps table.now) }
    requires few_ranks { IfSome lacking (λ need. need < 256) }
    requires set { set < length memo.old.sets }
    requires asked { (after : ℕ) (more : List Visited)
        → IsStepOver (course_of memo.old places.now) place (slice_index memo.old.sets set) after more
        → All (λ visit. T.CanAsk table.now visit.kind visit.action.state) more }
    ensures rows { memo.new.rows ≡ memo.old.rows }
    ensures moves { memo.new.moves ≡ memo.old.moves }
    ensures number { IfOk result (λ next. IfSome next (λ next. next < length memo.new.sets)) }
    ensures some { IfOk result (λ next. IfSome next (λ next. (more : List Visited)
        × IsStepOver (course_of memo.old places.now) place (slice_index memo.old.sets set)
        (slice_index memo.new.sets next) more
        × HasEnded (T.ranks table.now) lacking more ranks.old ranks.new)) }
    ensures none { IfOk result (λ next. IfNone next ((after : ℕ) × (more : List Visited)
        × IsStepOver (course_of memo.old places.now) place (slice_index memo.old.sets set) after more
        × HasOne (goes_further (T.ranks table.now) lacking) more)) }
{
    let entry = places.get(place);
    let step = memo.step(set, entry.of)?;
    if add_following(table, lacking, entry.kind, memo.actions(step), ranks) {
        Ok(Some(step.next))
    } else {
        Ok(None)
    }
}

/// Adds the ranks that follow by these actions at an item of the kind, unless one of them goes on, where this
/// rank is lacking or none.
#[inline]
fn add_following<T: Masks>(
    table: &T,
    lacking: Option<u32>,
    kind: u32,
    actions: &[Action],
    ranks: &mut StateSet<4>,
) -> bool
    requires kept { IsTrue (T.keeps table.now) }
    requires few_ranks { IfSome lacking (λ need. need < 256) }
    requires asked { All (λ action. T.CanAsk table.now kind action.state) actions.now }
    ensures ended { IsTrue result → (place : ℕ)
        → HasEnded (T.ranks table.now) lacking (map (visit_of place kind) actions.now) ranks.old ranks.new }
    ensures goes { result ≡ false → (place : ℕ)
        → HasOne (goes_further (T.ranks table.now) lacking) (map (visit_of place kind) actions.now) }
{
    match lacking {
        None => add_ended(table, kind, actions, ranks),
        Some(need) => add_needed(table, need, kind, actions, ranks),
    }
}

/// Adds the ranks that follow by these actions, where none is lacking.
#[inline]
fn add_ended<T: Masks>(table: &T, kind: u32, actions: &[Action], ranks: &mut StateSet<4>) -> bool
    requires kept { IsTrue (T.keeps table.now) }
    requires asked { All (λ action. T.CanAsk table.now kind action.state) actions.now }
    ensures ended { IsTrue result → (place : ℕ)
        → HasEnded (T.ranks table.now) None (map (visit_of place kind) actions.now) ranks.old ranks.new }
    ensures goes { result ≡ false → (place : ℕ)
        → HasOne (goes_further (T.ranks table.now) None) (map (visit_of place kind) actions.now) }
{
    for action in actions {
        if action.more {
            return false;
        }
        if action.ends {
            ranks.union_with(table.mask(kind, action.state));
        }
    }
    true
}

/// Adds this rank, which is lacking, if it follows by one of these actions: without it nothing ends.
#[inline]
fn add_needed<T: Masks>(
    table: &T,
    need: u32,
    kind: u32,
    actions: &[Action],
    ranks: &mut StateSet<4>,
) -> bool
    requires kept { IsTrue (T.keeps table.now) }
    requires few { need < 256 }
    requires asked { All (λ action. T.CanAsk table.now kind action.state) actions.now }
    ensures ended { IsTrue result → (place : ℕ) → HasEnded (T.ranks table.now) (Some need)
        (map (visit_of place kind) actions.now) ranks.old ranks.new }
    ensures goes { result ≡ false → (place : ℕ)
        → HasOne (goes_further (T.ranks table.now) (Some need)) (map (visit_of place kind) actions.now) }
{
    for action in actions {
        if action.unseen {
            return false;
        }
        if table.mask(kind, action.state).has(need) {
            if action.more {
                return false;
            }
            if action.ends {
                ranks.add(need);
            }
        }
    }
    true
}
