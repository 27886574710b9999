//! What follows the prefixes that are longer by one, counted ahead of their turn.

ghost use Rattle.std.specs.Prelude.{◌≡◌, ℕ, ◌≤◌, ◌<◌, [], Some, false, IsTrue, List, length, map, filter, All, Contains, IfSome, IfNone, IfOk};
ghost use Rattle.std.specs.List.{AllZip};
ghost use Rattle.place_walk.specs.declared.stand.Stand.{Stand as Standing};
ghost use Rattle.place_walk.specs.declared.visit.Visit.{Visit as Visited};
ghost use Rattle.place_walk.specs.Courses.{course_of};
ghost use Rattle.place_walk.specs.Visits.{AreVisits};
ghost use Rattle.place_walk.specs.Groups.{AreGroups};
ghost use Rattle.place_records.specs.Ranks.{ranks_of};
ghost use Rattle.place_records.specs.Values.{moves_for};
ghost use Rattle.stand_sums.specs.Sums.{AreLaidOut};
ghost use Rattle.stand_sums.specs.declared.next_rank.NextRank.{NextRank as Counting};
ghost use Rattle.mask_sums.specs.Kept.{lacking as lacking_of};
ghost use Rattle.level_ahead.specs.Counts.{asked_of, is_asked};
ghost use Rattle.snapshot_project.specs.Ahead.{next_of, last_of, moved_front, IsKeptAhead, AreFiledAhead, HaveRoomAhead, AreAllAdded, AreAhead};
ghost use Rattle.snapshot_project.specs.Aims.{goes};
ghost use Rattle.snapshot_project.specs.Founds.{IsReady, AreWalked};
ghost use Rattle.snapshot_project.specs.Longer.{HaveAllPlaces};

use super::aims::{lacking, sees};
use super::growing::{Grown, stands_behind};
use super::next_rank::NextRank;
use super::room::Tables;
use super::snapshots::Snapshots;
use super::terrain::Terrain;
use super::waiting::piece;
use level_ahead::{Ahead, NextOf, asks_about};
use mask_sums::Masks;
use mine_model::NoMemory;
use place_walk::{Stands, walk_some};
use stand_sums::{Aim, NextRank as Counted, Run};
use std::alloc::Global;
use std::sync::Arc;
use walk_memo::Memo;

// Whether it may be counted ahead what follows behind the ranks, and one of them is asked about.
fn looks_ahead<const W: usize>(
    over: &Terrain<W>,
    lacks: Option<u32>,
    weights: &[u32],
    found: &[Counted],
) -> bool
    requires { W ≤ 17 }
    ensures need { IsTrue result → IfSome lacks (λ need. need < 256) }
    ensures weights { IsTrue result → weights.now ≡ [] }
    ensures keeps { IsTrue result → IsTrue over.now.records.table.keeps }
{
    let within = match lacks {
        None => true,
        Some(need) => need < 256,
    };
    within && weights.is_empty() && over.records.table().has_masks() && asks_any(lacks, found)
}

// Whether one of the ranks is asked about.
fn asks_any(lacks: Option<u32>, found: &[Counted]) -> bool
    ensures { result ≡ false
        → (next : Counting) → Contains found.now next → is_asked lacks next ≡ false }
{
    for next in found {
        if asks_about(lacks, next) {
            return true;
        }
    }
    false
}

/// What is kept of the prefixes with the ranks, if it may be counted ahead what follows behind them, and
/// nothing goes on there.
pub(crate) fn look_ahead<const W: usize>(
    alloc: Global,
    over: &Terrain<W>,
    memo: &mut Memo<W>,
    weights: &[u32],
    aim: Aim,
    stands: &Stands,
    next: usize,
    found: &[Counted],
    least: u64,
    few: bool,
    tables: &mut Tables,
) -> Result<Option<Vec<Snapshots>>, NoMemory>
    requires width { W ≤ 17 }
    requires ready { IsReady over.now aim stands.now (length tables.old.sums) }
    requires rows { memo.old.rows ≡ over.now.rows.items }
    requires moves { memo.old.moves ≡ moves_for over.now.records (goes aim.seen aim.need) }
    requires room { tables.old.files.room ≡ length tables.old.sums }
    requires few { IsTrue few → length tables.old.sums ≤ 256 }
    requires below { All (λ next. next.rank < length tables.old.sums) found.now }
    requires places { (groups : List (List Standing)) → AreGroups stands.now groups
        → (sequences : List (List Visited))
        × AllZip (AreVisits (course_of memo.old over.now.records.places)) groups sequences
        × HaveAllPlaces (ranks_of over.now.records.table) aim sequences found.now }
    requires visits { length stands.now ≤ next → (groups : List (List Standing)) → AreGroups stands.now groups
        → AreWalked (course_of memo.old over.now.records.places) groups [] tables.old.visits }
    ensures rows { memo.new.rows ≡ memo.old.rows }
    ensures moves { memo.new.moves ≡ memo.old.moves }
    ensures sums { tables.new.sums ≡ tables.old.sums }
    ensures room { tables.new.files.room ≡ tables.old.files.room }
    ensures visits { IfOk result (λ longer. IfNone longer
        (length stands.now ≤ next → tables.new.visits ≡ tables.old.visits)) }
    ensures ahead { IfOk result (λ longer. IfSome longer (λ longer.
        AreAhead (course_of memo.old over.now.records.places) (ranks_of over.now.records.table) aim
        weights.now least (length tables.old.sums) stands.now found.now longer.items)) }
{
    let lacks = lacking(aim);
    if !few || !looks_ahead(over, lacks, weights, found) {
        return Ok(None);
    }
    tables.ahead.begin(alloc, lacks, found)?;
    if !count_ahead(over, memo, aim, stands, next, tables)? {
        return Ok(None);
    }
    let run = lacking_stands(alloc, over, memo, aim, stands, next, found, tables)?;
    let longer = longer_ahead(alloc, aim, found, least, run, &tables.ahead)?;
    Ok(Some(longer))
}

// The stands of the prefix with the rank that is lacking, if this one was found and has places.
fn lacking_stands<const W: usize>(
    alloc: Global,
    over: &Terrain<W>,
    memo: &mut Memo<W>,
    aim: Aim,
    stands: &Stands,
    next: usize,
    found: &[Counted],
    tables: &mut Tables,
) -> Result<Run, NoMemory>
    requires width { W ≤ 17 }
    requires ready { IsReady over.now aim stands.now tables.old.files.room }
    requires rows { memo.old.rows ≡ over.now.rows.items }
    requires moves { memo.old.moves ≡ moves_for over.now.records (goes aim.seen aim.need) }
    requires below { All (λ next. next.rank < tables.old.files.room) found.now }
    requires places { (groups : List (List Standing)) → AreGroups stands.now groups
        → (sequences : List (List Visited))
        × AllZip (AreVisits (course_of memo.old over.now.records.places)) groups sequences
        × HaveAllPlaces (ranks_of over.now.records.table) aim sequences found.now }
    requires visits { length stands.now ≤ next → (groups : List (List Standing)) → AreGroups stands.now groups
        → AreWalked (course_of memo.old over.now.records.places) groups [] tables.old.visits }
    ensures rows { memo.new.rows ≡ memo.old.rows }
    ensures moves { memo.new.moves ≡ memo.old.moves }
    ensures sums { tables.new.sums ≡ tables.old.sums }
    ensures room { tables.new.files.room ≡ tables.old.files.room }
    ensures ahead { tables.new.ahead ≡ tables.old.ahead }
    ensures filed { IfOk result (λ run. AreFiledAhead (course_of memo.old over.now.records.places)
        (ranks_of over.now.records.table) aim stands.now found.now run.stands) }
    ensures within { IfOk result (λ run. HaveRoomAhead aim found.now run.stands) }
{
    let Some(need) = lacking(aim) else {
        return Ok(Run::new(alloc));
    };
    let Some(one) = placed(need, found) else {
        return Ok(Run::new(alloc));
    };
    let mut only = Vec::new(alloc);
    only.push(at_front(one))?;
    stands_behind(
        alloc,
        over,
        memo,
        aim,
        stands,
        next,
        only.as_slice(),
        tables,
    )
}

// The entry of the rank, if it was found and has places.
fn placed(rank: u32, found: &[Counted]) -> Option<Counted>
    ensures some { IfSome result (λ one. Contains found.now one × (one.rank ≡ rank)
        × (one.first < one.last)) }
    ensures none { IfNone result ((next : Counting) → Contains found.now next → next.rank ≡ rank
        → next.last ≤ next.first) }
{
    for next in found {
        if next.rank == rank && next.first < next.last {
            return Some(*next);
        }
    }
    None
}

// The rank, with its places from 0 on.
fn at_front(next: Counted) -> Counted
    requires { next.first ≤ next.last }
    ensures { result ≡ moved_front next }
{
    Counted {
        first: 0,
        last: next.last - next.first,
        ..next
    }
}

// Counts what follows behind each rank asked about: from the buffer of visits, if those of all stands are in
// it. False where something goes on behind one of them.
fn count_ahead<const W: usize>(
    over: &Terrain<W>,
    memo: &mut Memo<W>,
    aim: Aim,
    stands: &Stands,
    next: usize,
    tables: &mut Tables,
) -> Result<bool, NoMemory>
    requires width { W ≤ 17 }
    requires ready { IsReady over.now aim stands.now (length tables.old.sums) }
    requires rows { memo.old.rows ≡ over.now.rows.items }
    requires moves { memo.old.moves ≡ moves_for over.now.records (goes aim.seen aim.need) }
    requires need { IfSome (lacking_of aim) (λ need. need < 256) }
    requires apart { (rank : ℕ) → Contains (asked_of tables.old.ahead) rank → lacking_of aim ≡ Some rank → ⊥ }
    requires keeps { IsTrue over.now.records.table.keeps }
    requires walked { (groups : List (List Standing)) → AreGroups stands.now groups
        → (sequences : List (List Visited))
        × AllZip (AreVisits (course_of memo.old over.now.records.places)) groups sequences }
    requires visits { length stands.now ≤ next → (groups : List (List Standing)) → AreGroups stands.now groups
        → AreWalked (course_of memo.old over.now.records.places) groups [] tables.old.visits }
    ensures rows { memo.new.rows ≡ memo.old.rows }
    ensures moves { memo.new.moves ≡ memo.old.moves }
    ensures sums { tables.new.sums ≡ tables.old.sums }
    ensures files { tables.new.files ≡ tables.old.files }
    ensures visits { length stands.now ≤ next → tables.new.visits ≡ tables.old.visits }
    ensures asked { asked_of tables.new.ahead ≡ asked_of tables.old.ahead }
    ensures counted { IfOk result (λ ended. IsTrue ended → (groups : List (List Standing))
        (sequences : List (List Visited)) → AreGroups stands.now groups
        → AllZip (AreVisits (course_of memo.old over.now.records.places)) groups sequences
        → AreAllAdded (course_of memo.old over.now.records.places) (ranks_of over.now.records.table)
        (lacking_of aim) sequences tables.old.ahead tables.new.ahead) }
{
    if next < stands.len() {
        return count_again(over, memo, aim, stands, tables);
    }
    let visits = tables.visits.as_slice();
    let table = over.records.table();
    tables
        .ahead
        .add(memo, over.records.places(), table, lacking(aim), visits)
}

// The same in walks of their own.
fn count_again<const W: usize>(
    over: &Terrain<W>,
    memo: &mut Memo<W>,
    aim: Aim,
    stands: &Stands,
    tables: &mut Tables,
) -> Result<bool, NoMemory>
    requires width { W ≤ 17 }
    requires ready { IsReady over.now aim stands.now (length tables.old.sums) }
    requires rows { memo.old.rows ≡ over.now.rows.items }
    requires moves { memo.old.moves ≡ moves_for over.now.records (goes aim.seen aim.need) }
    requires need { IfSome (lacking_of aim) (λ need. need < 256) }
    requires apart { (rank : ℕ) → Contains (asked_of tables.old.ahead) rank → lacking_of aim ≡ Some rank → ⊥ }
    requires keeps { IsTrue over.now.records.table.keeps }
    requires walked { (groups : List (List Standing)) → AreGroups stands.now groups
        → (sequences : List (List Visited))
        × AllZip (AreVisits (course_of memo.old over.now.records.places)) groups sequences }
    ensures rows { memo.new.rows ≡ memo.old.rows }
    ensures moves { memo.new.moves ≡ memo.old.moves }
    ensures sums { tables.new.sums ≡ tables.old.sums }
    ensures files { tables.new.files ≡ tables.old.files }
    ensures asked { asked_of tables.new.ahead ≡ asked_of tables.old.ahead }
    ensures counted { IfOk result (λ ended. IsTrue ended → (groups : List (List Standing))
        (sequences : List (List Visited)) → AreGroups stands.now groups
        → AllZip (AreVisits (course_of memo.old over.now.records.places)) groups sequences
        → AreAllAdded (course_of memo.old over.now.records.places) (ranks_of over.now.records.table)
        (lacking_of aim) sequences tables.old.ahead tables.new.ahead) }
{
    let mut from = 0;
    'walks: while from < stands.len() {
        from = walk_some(
            memo,
            over.records.places(),
            stands,
            from,
            &mut tables.visits,
        )?;
        let visits = tables.visits.as_slice();
        let table = over.records.table();
        if !tables
            .ahead
            .add(memo, over.records.places(), table, lacking(aim), visits)?
        {
            return Ok(false);
        }
    }
    Ok(true)
}

// What is kept of the prefixes with these ranks, where what follows behind each that is asked about was
// counted, and the stands of the one that is lacking are in the run.
fn longer_ahead(
    alloc: Global,
    aim: Aim,
    found: &[Counted],
    least: u64,
    run: Run,
    ahead: &Ahead,
) -> Result<Vec<Snapshots>, NoMemory>
    requires asked { asked_of ahead.now
        ≡ map (λ next. next.rank) (filter (is_asked (lacking_of aim)) found.now) }
    requires within { HaveRoomAhead aim found.now run.stands }
    ensures { IfOk result (λ longer.
        AllZip (IsKeptAhead aim least ahead.now run.stands) found.now longer.items) }
{
    let shared = Arc::new(alloc, run)?;
    let mut longer = Vec::with_capacity(alloc, found.len())?;
    let mut entry = 0;
    for next in found {
        if asks_about(lacking(aim), next) {
            let seen = sees(aim, next.rank);
            let behind = ahead.reaching(alloc, entry, least)?;
            longer.push(Snapshots::told(seen, next.support, behind))?;
            entry += 1;
        } else if next.first < next.last {
            longer.push(piece(aim, at_front(*next), shared.clone()?))?;
        } else {
            let seen = sees(aim, next.rank);
            let behind = Vec::new(alloc);
            longer.push(Snapshots::told(seen, next.support, behind))?;
        }
    }
    Ok(longer)
}

/// What was known before to follow; behind that follows nothing more.
pub(crate) fn told_before(alloc: Global, aim: Aim, next: &[NextOf]) -> Result<Grown, NoMemory>
    ensures next { IfOk result (λ grown. grown.next.items ≡ map next_of next.now) }
    ensures longer { IfOk result (λ grown. grown.longer.items ≡ map (last_of aim) next.now) }
{
    let mut grown = Grown {
        next: Vec::new(alloc),
        longer: Vec::new(alloc),
    };
    if next.is_empty() {
        return Ok(grown);
    }
    let none = Arc::new(alloc, Run::new(alloc))?;
    for known in next {
        grown.next.push(NextRank {
            rank: known.rank,
            weight: known.count,
            support: known.count,
        })?;
        let seen = sees(aim, known.rank);
        let last = Snapshots::new(seen, known.count, none.clone()?, 0, 0);
        grown.longer.push(last)?;
    }
    Ok(grown)
}

/// Whether one of the ranks has places for stands.
pub(crate) fn has_places(found: &[Counted]) -> bool
    ensures { result ≡ false → (end : ℕ) → AreLaidOut 0 found.now end → end ≡ 0 }
{
    match found.last() {
        Some(next) => 0 < next.last,
        None => false,
    }
}
