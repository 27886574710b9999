//! The walk.

ghost use Rattle.std.specs.Prelude.{◌≡◌, ℕ, ◌+◌, ◌≤◌, ◌<◌, ◌^◌, ◌⊎◌, ◌++◌, List, length, drop, All, AllPairs, Some, IfSome, IfNone, IfOk, OnOk, slice_get, slice_index};
ghost use Rattle.place_walk.specs.declared.stand.Stand.{Stand as Standing};
ghost use Rattle.place_walk.specs.declared.visit.Visit.{Visit as Visited};
ghost use Rattle.place_walk.specs.Courses.{course_of};
ghost use Rattle.place_walk.specs.Visits.{AreVisits};
ghost use Rattle.place_walk.specs.Groups.{AreGroups, AreWalked};
ghost use Rattle.place_walk.specs.Ways.{IsNextAt, with_first};

use super::grouping::group_end;
use super::joining::join;
use super::stands::Stands;
use super::stepping::step;
use super::touching::touch;
use super::visit::Visit;
use super::visits::Visits;
use mine_model::NoMemory;
use walk_memo::Memo;
use walk_places::Places;

// Once so many visits were made no further sequence is begun.
const MANY_VISITS: usize = 524_288;

/// Walks through the sequences of the next stands, from this one on, until there are many visits or no
/// stands: at least through one, and through each to its end. Fills the room anew, and tells the first stand
/// that was not looked at. Where memory is wanting, the room holds any visits. All numbers of the memo are
/// void behind the call.
pub fn walk_some<const W: usize>(
    memo: &mut Memo<W>,
    places: &Places,
    stands: &Stands,
    from: usize,
    visits: &mut Visits,
) -> Result<usize, NoMemory>
    requires width { W ≤ 17 }
    requires from { from < length stands.now }
    requires few { length places.now < 2 ^ 32 }
    requires moves { All (λ entry. entry.of < length memo.old.moves) places.now }
    requires states { All (λ stand. stand.state < length memo.old.rows) stands.now }
    requires places { All (λ stand. stand.place < length places.now) stands.now }
    requires rising { AllPairs (λ one other. one.place ≤ other.place) stands.now }
    ensures rows { memo.new.rows ≡ memo.old.rows }
    ensures moves { memo.new.moves ≡ memo.old.moves }
    ensures forward { IfOk result (λ next. from < next) }
    ensures within { IfOk result (λ next. next ≤ length stands.now) }
    ensures many { IfOk result (λ next. next < length stands.now → 2 ^ 15 ≤ length visits.new) }
    ensures walked { IfOk result (λ next. (groups : List (List Standing))
        → AreGroups (drop from stands.now) groups
        → AreWalked (course_of memo.old places.now) groups (drop next stands.now) visits.new) }
{
    walk_list(
        memo,
        places,
        stands,
        from,
        &mut visits.list,
        &mut visits.touched,
    )
}

/// The same, over the parts of the room.
fn walk_list<const W: usize>(
    memo: &mut Memo<W>,
    places: &Places,
    stands: &Stands,
    from: usize,
    visits: &mut Vec<Visit>,
    touched: &mut u32,
) -> Result<usize, NoMemory>
    requires width { W ≤ 17 }
    requires from { from < length stands.now }
    requires few { length places.now < 2 ^ 32 }
    requires moves { All (λ entry. entry.of < length memo.old.moves) places.now }
    requires states { All (λ stand. stand.state < length memo.old.rows) stands.now }
    requires places { All (λ stand. stand.place < length places.now) stands.now }
    requires rising { AllPairs (λ one other. one.place ≤ other.place) stands.now }
    ensures rows { memo.new.rows ≡ memo.old.rows }
    ensures moves { memo.new.moves ≡ memo.old.moves }
    ensures forward { IfOk result (λ next. from < next) }
    ensures within { IfOk result (λ next. next ≤ length stands.now) }
    ensures many { IfOk result (λ next. next < length stands.now → 2 ^ 15 ≤ length visits.new.items) }
    ensures walked { IfOk result (λ next. (groups : List (List Standing))
        → AreGroups (drop from stands.now) groups
        → AreWalked (course_of memo.old places.now) groups (drop next stands.now) visits.new.items) }
{
    visits.clear();
    let mut next = from;
    let mut near = from;
    'groups: while next < stands.len() && visits.len() < MANY_VISITS {
        if near <= next {
            near = touch(places, stands, next, touched);
        }
        let end = group_end(stands, next);
        walk_group(memo, places, &stands.piece(next, end), visits)?;
        next = end;
    }
    Ok(next)
}

/// Appends the visits of the stands of one sequence, the first of them marked.
fn walk_group<const W: usize>(
    memo: &mut Memo<W>,
    places: &Places,
    group: &Stands,
    visits: &mut Vec<Visit>,
) -> Result<(), NoMemory>
    requires width { W ≤ 17 }
    requires few { length places.now < 2 ^ 32 }
    requires moves { All (λ entry. entry.of < length memo.old.moves) places.now }
    requires states { All (λ stand. stand.state < length memo.old.rows) group.now }
    requires places { All (λ stand. stand.place < length places.now) group.now }
    requires rising { AllPairs (λ one other. one.place ≤ other.place) group.now }
    ensures rows { memo.new.rows ≡ memo.old.rows }
    ensures moves { memo.new.moves ≡ memo.old.moves }
    ensures visits { OnOk result ((here : List Visited) × (visits.new.items ≡ visits.old.items ++ here)
        × AreVisits (course_of memo.old places.now) group.now here) }
{
    let begun = visits.len();
    walk_sequence(memo, places, group, visits)?;
    mark_first(visits, begun);
    Ok(())
}

/// Appends the visits of the stands of one sequence, none of them marked.
fn walk_sequence<const W: usize>(
    memo: &mut Memo<W>,
    places: &Places,
    group: &Stands,
    visits: &mut Vec<Visit>,
) -> Result<(), NoMemory>
    requires width { W ≤ 17 }
    requires few { length places.now < 2 ^ 32 }
    requires moves { All (λ entry. entry.of < length memo.old.moves) places.now }
    requires states { All (λ stand. stand.state < length memo.old.rows) group.now }
    requires places { All (λ stand. stand.place < length places.now) group.now }
    requires rising { AllPairs (λ one other. one.place ≤ other.place) group.now }
    ensures rows { memo.new.rows ≡ memo.old.rows }
    ensures moves { memo.new.moves ≡ memo.old.moves }
    ensures visits { OnOk result ((here : List Visited) × (visits.new.items ≡ visits.old.items ++ here)
        × AreVisits (course_of memo.old places.now) group.now (with_first here)) }
{
    let end = places.len();
    let mut set = memo.empty();
    let mut taken = 0;
    let mut place = 0;
    'places: while let Some(at) = next_place(memo, group, taken, place, end, set) {
        let joined = join(memo, group, taken, at, set)?;
        set = step(memo, places, at, joined.set, visits)?;
        taken = joined.taken;
        place = at + 1;
    }
    Ok(())
}

/// The next place before the end that matters: this one while the set has a state, else that of the next
/// stand.
#[inline]
fn next_place<const W: usize>(
    memo: &Memo<W>,
    group: &Stands,
    taken: usize,
    place: u32,
    end: usize,
    set: u32,
) -> Option<u32>
    requires { set < length memo.now.sets }
    ensures some { IfSome result (IsNextAt group.now taken place end (slice_index memo.now.sets set)) }
    ensures none { IfNone result ((end ≤ place) ⊎ ((slice_index memo.now.sets set ≡ 0)
        × ((stand : Standing) → slice_get group.now taken ≡ Some stand → end ≤ stand.place))) }
{
    let at = if memo.is_empty(set) {
        if taken >= group.len() {
            return None;
        }
        group.get(taken).place
    } else {
        place
    };
    if (at as usize) < end { Some(at) } else { None }
}

/// Marks the first visit from this index on, if there is one.
fn mark_first(visits: &mut Vec<Visit>, begun: usize)
    ensures { (before here : List Visited) → visits.old.items ≡ before ++ here → length before ≡ begun
        → visits.new.items ≡ before ++ with_first here }
{
    if begun < visits.len() {
        visits[begun].first = true;
    }
}
