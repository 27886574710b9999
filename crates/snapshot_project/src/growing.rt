//! What may follow a prefix, and what is kept of the prefixes that are longer by one.

ghost use Rattle.std.specs.Prelude.{◌≡◌, ℕ, ◌+◌, ◌≤◌, ◌<◌, ◌++◌, ◌∷◌, [], IsTrue, List, length, map, drop, All, AllPairs, None, Some, IfSome, IfOk, OnOk, slice_get};
ghost use Rattle.std.specs.List.{AllZip};
ghost use Rattle.place_walk.specs.declared.stand.Stand.{Stand as Standing};
ghost use Rattle.place_walk.specs.declared.visit.Visit.{Visit as Visited};
ghost use Rattle.place_walk.specs.Courses.{course_of};
ghost use Rattle.place_walk.specs.Visits.{AreVisits};
ghost use Rattle.place_walk.specs.Groups.{AreGroups};
ghost use Rattle.place_records.specs.Ranks.{ranks_of};
ghost use Rattle.place_records.specs.Values.{moves_for};
ghost use Rattle.stand_sums.specs.Files.{unfiled, with_more};
ghost use Rattle.stand_sums.specs.Sums.{AreLaidOut};
ghost use Rattle.snapshot_project.specs.declared.next_rank.NextRank.{NextRank as Next};
ghost use Rattle.snapshot_project.specs.Ahead.{items_if};
ghost use Rattle.snapshot_project.specs.Aims.{goes};
ghost use Rattle.snapshot_project.specs.Extensions.{AreNextRanks};
ghost use Rattle.snapshot_project.specs.Founds.{AreStandsFor, IsReady, course_over, AreWalked, AreSummed, AreInRun, AreFound, IsFoundIn};
ghost use Rattle.snapshot_project.specs.Longer.{told_of, AreKept, IsKeptOf, HaveAllPlaces, IsWithin};
ghost use Rattle.snapshot_project.specs.Rooms.{AreMemosOver};
ghost use Rattle.snapshot_project.specs.Snapshots.{IsPart};
ghost use Rattle.snapshot_project.specs.Stands.{IsProjected, StandList, standing};
ghost use Rattle.sequence_grids.specs.Grids.{GridList};

use super::ahead::{has_places, look_ahead, told_before};
use super::aims::goes_on;
use super::next_rank::NextRank;
use super::part::Part;
use super::room::{Memos, Room, Tables};
use super::snapshots::Snapshots;
use super::terrain::{AnyTerrain, Terrain};
use super::waiting::{longer_from, packs, unpacked};
use mine_model::NoMemory;
use place_walk::{Stands, walk_some};
use stand_sums::{Aim, NextRank as Counted, Run};
use std::alloc::Global;
use walk_memo::Memo;

/// The ranks that can follow a prefix, rising, and of each what is kept of the prefix with it.
#[derive(Drop)]
pub struct Grown {
    pub next: Vec<NextRank>,
    pub longer: Vec<Snapshots>,
}

/// What follows the prefix in sequences that weigh at least `least`. Where the room knows a part that needs
/// the same, it has to be this one.
pub fn grow<'a>(
    alloc: Global,
    part: &Part<'a>,
    snapshots: &Snapshots,
    least: u64,
    room: &mut Room<'a>,
) -> Result<Grown, NoMemory>
    requires least { 1 ≤ least }
    requires room { length part.now.problem.ranking.order ≤ room.old.ranks }
    requires same { IfSome room.old.part (λ known. known.bound.need ≡ part.now.bound.need
        → known ≡ part.now) }
    requires projected { (ranks : List ℕ) × IsProjected part.now least ranks snapshots.now }
    ensures room { room.new.ranks ≡ room.old.ranks }
    ensures known { IfSome room.new.part (λ known. known ≡ part.now) }
    ensures next { IfOk result (λ grown. (ranks : List ℕ) → IsProjected part.now least ranks snapshots.now
        → AreNextRanks part.now ranks least grown.next.items) }
    ensures all { IfOk result (λ grown. length grown.longer.items ≡ length grown.next.items) }
    ensures each { IfOk result (λ grown. (ranks : List ℕ) → IsProjected part.now least ranks snapshots.now
        → (i : ℕ) (n : Next) (list : StandList) → slice_get grown.next.items i ≡ Some n
        → slice_get grown.longer.items i ≡ Some list
        → IsProjected part.now least (ranks ++ n.rank ∷ []) list) }
{
    let aim = Aim {
        seen: snapshots.seen(),
        need: part.need(),
    };
    room.enter(part)?;
    if let Some(next) = snapshots.next() {
        return told_before(alloc, aim, next);
    }
    if let Some(bytes) = snapshots.bytes() {
        let stands = unpacked(alloc, part, bytes)?;
        return grow_from(
            alloc,
            part,
            aim,
            &Stands::of(stands.as_slice()),
            least,
            room,
        );
    }
    grow_from(alloc, part, aim, &snapshots.stands(), least, room)
}

// What follows a prefix that stands there, in the part that is known.
fn grow_from<'a>(
    alloc: Global,
    part: &Part<'a>,
    aim: Aim,
    stands: &Stands,
    least: u64,
    room: &mut Room<'a>,
) -> Result<Grown, NoMemory>
    requires least { 1 ≤ least }
    requires is { IsPart part.now }
    requires need { aim.need ≡ part.now.bound.need }
    requires room { length part.now.problem.ranking.order ≤ room.old.ranks }
    requires known { room.old.part ≡ Some part.now }
    requires projected { (ranks : List ℕ) × (support : ℕ)
        × IsProjected part.now least ranks (standing aim.seen support stands.now) }
    ensures room { room.new ≡ room.old }
    ensures next { IfOk result (λ grown. (ranks : List ℕ) (support : ℕ)
        → IsProjected part.now least ranks (standing aim.seen support stands.now)
        → AreNextRanks part.now ranks least grown.next.items) }
    ensures all { IfOk result (λ grown. length grown.longer.items ≡ length grown.next.items) }
    ensures each { IfOk result (λ grown. (ranks : List ℕ) (support : ℕ)
        → IsProjected part.now least ranks (standing aim.seen support stands.now)
        → (i : ℕ) (n : Next) (list : StandList) → slice_get grown.next.items i ≡ Some n
        → slice_get grown.longer.items i ≡ Some list
        → IsProjected part.now least (ranks ++ n.rank ∷ []) list) }
{
    if stands.len() == 0 {
        return Ok(Grown {
            next: Vec::new(alloc),
            longer: Vec::new(alloc),
        });
    }
    let found = find(alloc, aim, stands, least, room)?;
    let next = told(alloc, found.ranks.as_slice())?;
    let packs = packs(&found.run);
    let longer = longer_by(alloc, part, aim, found, packs)?;
    Ok(Grown { next, longer })
}

// The ranks with their sums; and the stands of the prefixes with them in one run, or what is kept of these
// where it was found what follows each of them.
#[derive(Drop)]
struct Found {
    ranks: Vec<Counted>,
    run: Run,
    longer: Option<Vec<Snapshots>>,
}

// The ranks with their sums, and the stands of the prefixes with them in one run, in the part that is known.
fn find(
    alloc: Global,
    aim: Aim,
    stands: &Stands,
    least: u64,
    room: &mut Room,
) -> Result<Found, NoMemory>
    requires some { 0 < length stands.now }
    requires known { (part : GridList) × (room.old.part ≡ Some part)
        × (length part.problem.ranking.order ≤ room.old.ranks) × AreStandsFor part aim stands.now }
    ensures room { room.new ≡ room.old }
    ensures found { IfOk result (λ found. (part : GridList) → room.old.part ≡ Some part
        → IsFoundIn part aim least (room.old.ranks + 1) stands.now found.ranks.items
        found.run.stands (items_if found.longer)) }
{
    let Some(ground) = &room.known else {
        // One is known, so there is no such answer.
        return Ok(Found {
            ranks: Vec::new(alloc),
            run: Run::new(alloc),
            longer: None,
        });
    };
    let weights = ground.weights.as_slice();
    let few = room.few;
    let tables = &mut room.tables;
    match &ground.terrain {
        AnyTerrain::One(over) => find_over(
            alloc,
            over,
            weights,
            aim,
            stands,
            least,
            few,
            &mut room.one,
            tables,
        ),
        AnyTerrain::Four(over) => find_over(
            alloc,
            over,
            weights,
            aim,
            stands,
            least,
            few,
            &mut room.four,
            tables,
        ),
        AnyTerrain::Wide(over) => find_over(
            alloc,
            over,
            weights,
            aim,
            stands,
            least,
            few,
            &mut room.wide,
            tables,
        ),
    }
}

// The same in sets of one width.
fn find_over<const W: usize>(
    alloc: Global,
    over: &Terrain<W>,
    weights: &[u32],
    aim: Aim,
    stands: &Stands,
    least: u64,
    few: bool,
    memos: &mut Memos<W>,
    tables: &mut Tables,
) -> Result<Found, NoMemory>
    requires width { W ≤ 17 }
    requires some { 0 < length stands.now }
    requires ready { IsReady over.now aim stands.now (length tables.old.sums) }
    requires memos { AreMemosOver over.now memos.old }
    requires few { IsTrue few → length tables.old.sums ≤ 256 }
    requires room { tables.old.files.room ≡ length tables.old.sums }
    ensures memos { AreMemosOver over.now memos.new }
    ensures sums { length tables.new.sums ≡ length tables.old.sums }
    ensures files { tables.new.files.room ≡ tables.old.files.room }
    ensures found { IfOk result (λ found.
        AreFound (course_over over.now.rows.items over.now.records aim) (ranks_of over.now.records.table)
        aim weights.now least (length tables.old.sums) stands.now found.ranks.items
        found.run.stands (items_if found.longer)) }
{
    if goes_on(aim) {
        find_by(
            alloc,
            over,
            weights,
            aim,
            stands,
            least,
            few,
            &mut memos.late,
            tables,
        )
    } else {
        find_by(
            alloc,
            over,
            weights,
            aim,
            stands,
            least,
            few,
            &mut memos.early,
            tables,
        )
    }
}

// The same with a memo of the moves for this aim.
fn find_by<const W: usize>(
    alloc: Global,
    over: &Terrain<W>,
    weights: &[u32],
    aim: Aim,
    stands: &Stands,
    least: u64,
    few: bool,
    memo: &mut Memo<W>,
    tables: &mut Tables,
) -> Result<Found, NoMemory>
    requires width { W ≤ 17 }
    requires some { 0 < length stands.now }
    requires ready { IsReady over.now aim stands.now (length tables.old.sums) }
    requires few { IsTrue few → length tables.old.sums ≤ 256 }
    requires room { tables.old.files.room ≡ length tables.old.sums }
    requires rows { memo.old.rows ≡ over.now.rows.items }
    requires moves { memo.old.moves ≡ moves_for over.now.records (goes aim.seen aim.need) }
    ensures rows { memo.new.rows ≡ memo.old.rows }
    ensures moves { memo.new.moves ≡ memo.old.moves }
    ensures sums { length tables.new.sums ≡ length tables.old.sums }
    ensures files { tables.new.files.room ≡ tables.old.files.room }
    ensures found { IfOk result (λ found.
        AreFound (course_of memo.old over.now.records.places) (ranks_of over.now.records.table)
        aim weights.now least (length tables.old.sums) stands.now found.ranks.items
        found.run.stands (items_if found.longer)) }
{
    let next = count_all(over, memo, weights, aim, stands, tables)?;
    let ranks = tables.sums.reaching(alloc, least, least)?;
    let found = ranks.as_slice();
    let longer = look_ahead(
        alloc, over, memo, weights, aim, stands, next, found, least, few, tables,
    )?;
    if let Some(longer) = longer {
        return Ok(Found {
            ranks,
            run: Run::new(alloc),
            longer: Some(longer),
        });
    }
    let run = stands_behind(alloc, over, memo, aim, stands, next, found, tables)?;
    Ok(Found {
        ranks,
        run,
        longer: None,
    })
}

/// The stands of the prefixes with these ranks, in one run.
pub(crate) fn stands_behind<const W: usize>(
    alloc: Global,
    over: &Terrain<W>,
    memo: &mut Memo<W>,
    aim: Aim,
    stands: &Stands,
    next: usize,
    found: &[Counted],
    tables: &mut Tables,
) -> Result<Run, NoMemory>
    requires width { W ≤ 17 }
    requires ready { IsReady over.now aim stands.now tables.old.files.room }
    requires rows { memo.old.rows ≡ over.now.rows.items }
    requires moves { memo.old.moves ≡ moves_for over.now.records (goes aim.seen aim.need) }
    requires rising { AllPairs (λ low high. low.rank < high.rank) found.now }
    requires below { All (λ next. next.rank < tables.old.files.room) found.now }
    requires laid_out { (end : ℕ) × AreLaidOut 0 found.now end }
    requires places { (groups : List (List Standing)) → AreGroups stands.now groups
        → (sequences : List (List Visited))
        × AllZip (AreVisits (course_of memo.old over.now.records.places)) groups sequences
        × HaveAllPlaces (ranks_of over.now.records.table) aim sequences found.now }
    requires visits { length stands.now ≤ next → (groups : List (List Standing)) → AreGroups stands.now groups
        → AreWalked (course_of memo.old over.now.records.places) groups [] tables.old.visits }
    ensures rows { memo.new.rows ≡ memo.old.rows }
    ensures moves { memo.new.moves ≡ memo.old.moves }
    ensures sums { tables.new.sums ≡ tables.old.sums }
    ensures room { tables.new.files.room ≡ tables.old.files.room }
    ensures ahead { tables.new.ahead ≡ tables.old.ahead }
    ensures run { IfOk result (λ run. (groups : List (List Standing)) (sequences : List (List Visited))
        → AreGroups stands.now groups
        → AllZip (AreVisits (course_of memo.old over.now.records.places)) groups sequences
        → AreInRun (ranks_of over.now.records.table) aim sequences found.now run.stands) }
{
    tables.files.begin(alloc, found)?;
    file_stands(alloc, over, memo, aim, stands, next, found, tables)?;
    Ok(tables.files.finish(alloc))
}

// Counts what the paths of all stands write. The first stand whose paths are not in the buffer of visits.
fn count_all<const W: usize>(
    over: &Terrain<W>,
    memo: &mut Memo<W>,
    weights: &[u32],
    aim: Aim,
    stands: &Stands,
    tables: &mut Tables,
) -> Result<usize, NoMemory>
    requires width { W ≤ 17 }
    requires some { 0 < length stands.now }
    requires ready { IsReady over.now aim stands.now (length tables.old.sums) }
    requires rows { memo.old.rows ≡ over.now.rows.items }
    requires moves { memo.old.moves ≡ moves_for over.now.records (goes aim.seen aim.need) }
    ensures rows { memo.new.rows ≡ memo.old.rows }
    ensures moves { memo.new.moves ≡ memo.old.moves }
    ensures sums { length tables.new.sums ≡ length tables.old.sums }
    ensures files { tables.new.files ≡ tables.old.files }
    ensures visits { IfOk result (λ next. length stands.now ≤ next → (groups : List (List Standing))
        → AreGroups stands.now groups
        → AreWalked (course_of memo.old over.now.records.places) groups [] tables.new.visits) }
    ensures counted { IfOk result (λ next. (groups : List (List Standing)) → AreGroups stands.now groups
        → AreSummed (course_of memo.old over.now.records.places) (ranks_of over.now.records.table)
        aim weights.now groups [] tables.new.sums) }
{
    tables.sums.clear();
    let next = count_some(over, memo, weights, aim, stands, 0, tables)?;
    if next < stands.len() {
        count_rest(over, memo, weights, aim, stands, next, tables)?;
    }
    Ok(next)
}

// Files the stands behind what the paths write, where the ranks have places: from the buffer of visits, if
// those of all stands are in it.
fn file_stands<const W: usize>(
    alloc: Global,
    over: &Terrain<W>,
    memo: &mut Memo<W>,
    aim: Aim,
    stands: &Stands,
    next: usize,
    found: &[Counted],
    tables: &mut Tables,
) -> Result<(), NoMemory>
    requires width { W ≤ 17 }
    requires ready { IsReady over.now aim stands.now tables.old.files.room }
    requires rows { memo.old.rows ≡ over.now.rows.items }
    requires moves { memo.old.moves ≡ moves_for over.now.records (goes aim.seen aim.need) }
    requires begun { tables.old.files.filed ≡ map unfiled found.now }
    requires laid_out { (end : ℕ) × AreLaidOut 0 found.now end }
    requires places { (groups : List (List Standing)) → AreGroups stands.now groups
        → (sequences : List (List Visited))
        × AllZip (AreVisits (course_of memo.old over.now.records.places)) groups sequences
        × HaveAllPlaces (ranks_of over.now.records.table) aim sequences found.now }
    requires visits { length stands.now ≤ next → (groups : List (List Standing)) → AreGroups stands.now groups
        → AreWalked (course_of memo.old over.now.records.places) groups [] tables.old.visits }
    ensures rows { memo.new.rows ≡ memo.old.rows }
    ensures moves { memo.new.moves ≡ memo.old.moves }
    ensures sums { tables.new.sums ≡ tables.old.sums }
    ensures room { tables.new.files.room ≡ tables.old.files.room }
    ensures ahead { tables.new.ahead ≡ tables.old.ahead }
    ensures filed { OnOk result ((groups : List (List Standing)) (sequences : List (List Visited))
        → AreGroups stands.now groups
        → AllZip (AreVisits (course_of memo.old over.now.records.places)) groups sequences
        → tables.new.files.filed ≡ map (with_more (ranks_of over.now.records.table) aim sequences)
        (map unfiled found.now)) }
{
    if !has_places(found) {
        return Ok(());
    }
    if next < stands.len() {
        return file_again(alloc, over, memo, aim, stands, found, tables);
    }
    let visits = tables.visits.as_slice();
    tables.files.file(alloc, over.records.table(), aim, visits)
}

// Counts what the paths write that stand there, from this stand on, in one walk. The first stand that is
// left.
fn count_some<const W: usize>(
    over: &Terrain<W>,
    memo: &mut Memo<W>,
    weights: &[u32],
    aim: Aim,
    stands: &Stands,
    from: usize,
    tables: &mut Tables,
) -> Result<usize, NoMemory>
    requires width { W ≤ 17 }
    requires ready { IsReady over.now aim stands.now (length tables.old.sums) }
    requires rows { memo.old.rows ≡ over.now.rows.items }
    requires moves { memo.old.moves ≡ moves_for over.now.records (goes aim.seen aim.need) }
    requires from { from < length stands.now }
    requires begun { (groups : List (List Standing)) → AreGroups stands.now groups
        → AreSummed (course_of memo.old over.now.records.places) (ranks_of over.now.records.table) aim
        weights.now groups (drop from stands.now) tables.old.sums }
    ensures rows { memo.new.rows ≡ memo.old.rows }
    ensures moves { memo.new.moves ≡ memo.old.moves }
    ensures sums { length tables.new.sums ≡ length tables.old.sums }
    ensures files { tables.new.files ≡ tables.old.files }
    ensures forward { IfOk result (λ next. from < next) }
    ensures within { IfOk result (λ next. next ≤ length stands.now) }
    ensures visits { IfOk result (λ next. (groups : List (List Standing))
        → AreGroups (drop from stands.now) groups
        → AreWalked (course_of memo.old over.now.records.places) groups (drop next stands.now)
        tables.new.visits) }
    ensures counted { IfOk result (λ next. (groups : List (List Standing)) → AreGroups stands.now groups
        → AreSummed (course_of memo.old over.now.records.places) (ranks_of over.now.records.table) aim
        weights.now groups (drop next stands.now) tables.new.sums) }
{
    let next = walk_some(
        memo,
        over.records.places(),
        stands,
        from,
        &mut tables.visits,
    )?;
    tables.sums.add(over.records.table(), aim, weights, tables.visits.as_slice())?;
    Ok(next)
}

// Counts the others, walk by walk.
fn count_rest<const W: usize>(
    over: &Terrain<W>,
    memo: &mut Memo<W>,
    weights: &[u32],
    aim: Aim,
    stands: &Stands,
    from: usize,
    tables: &mut Tables,
) -> Result<(), NoMemory>
    requires width { W ≤ 17 }
    requires ready { IsReady over.now aim stands.now (length tables.old.sums) }
    requires rows { memo.old.rows ≡ over.now.rows.items }
    requires moves { memo.old.moves ≡ moves_for over.now.records (goes aim.seen aim.need) }
    requires from { from ≤ length stands.now }
    requires begun { (groups : List (List Standing)) → AreGroups stands.now groups
        → AreSummed (course_of memo.old over.now.records.places) (ranks_of over.now.records.table) aim
        weights.now groups (drop from stands.now) tables.old.sums }
    ensures rows { memo.new.rows ≡ memo.old.rows }
    ensures moves { memo.new.moves ≡ memo.old.moves }
    ensures sums { length tables.new.sums ≡ length tables.old.sums }
    ensures files { tables.new.files ≡ tables.old.files }
    ensures counted { OnOk result ((groups : List (List Standing)) → AreGroups stands.now groups
        → AreSummed (course_of memo.old over.now.records.places) (ranks_of over.now.records.table) aim
        weights.now groups [] tables.new.sums) }
{
    let mut next = from;
    'walks: while next < stands.len() {
        next = count_some(over, memo, weights, aim, stands, next, tables)?;
    }
    Ok(())
}

// Files the stands behind what the paths write, in walks of their own.
fn file_again<const W: usize>(
    alloc: Global,
    over: &Terrain<W>,
    memo: &mut Memo<W>,
    aim: Aim,
    stands: &Stands,
    found: &[Counted],
    tables: &mut Tables,
) -> Result<(), NoMemory>
    requires width { W ≤ 17 }
    requires ready { IsReady over.now aim stands.now tables.old.files.room }
    requires rows { memo.old.rows ≡ over.now.rows.items }
    requires moves { memo.old.moves ≡ moves_for over.now.records (goes aim.seen aim.need) }
    requires begun { tables.old.files.filed ≡ map unfiled found.now }
    requires places { (groups : List (List Standing)) → AreGroups stands.now groups
        → (sequences : List (List Visited))
        × AllZip (AreVisits (course_of memo.old over.now.records.places)) groups sequences
        × HaveAllPlaces (ranks_of over.now.records.table) aim sequences found.now }
    ensures rows { memo.new.rows ≡ memo.old.rows }
    ensures moves { memo.new.moves ≡ memo.old.moves }
    ensures sums { tables.new.sums ≡ tables.old.sums }
    ensures room { tables.new.files.room ≡ tables.old.files.room }
    ensures ahead { tables.new.ahead ≡ tables.old.ahead }
    ensures filed { OnOk result ((groups : List (List Standing)) (sequences : List (List Visited))
        → AreGroups stands.now groups
        → AllZip (AreVisits (course_of memo.old over.now.records.places)) groups sequences
        → tables.new.files.filed ≡ map (with_more (ranks_of over.now.records.table) aim sequences)
        (map unfiled found.now)) }
{
    let _found = found;
    let mut from = 0;
    'walks: while from < stands.len() {
        from = walk_some(
            memo,
            over.records.places(),
            stands,
            from,
            &mut tables.visits,
        )?;
        tables
            .files
            .file(alloc, over.records.table(), aim, tables.visits.as_slice())?;
    }
    Ok(())
}

// What is kept of the prefixes with the ranks that were found.
fn longer_by(
    alloc: Global,
    part: &Part,
    aim: Aim,
    found: Found,
    packs: bool,
) -> Result<Vec<Snapshots>, NoMemory>
    requires within { items_if found.longer ≡ None → All (IsWithin found.run.stands) found.ranks.items }
    requires kept { items_if found.longer ≡ None → (least : ℕ) × (ranks : List ℕ)
        × AreKept part.now aim least ranks found.run.stands found.ranks.items }
    ensures stands { IfOk result (λ longer. items_if found.longer ≡ None → (least : ℕ) (ranks : List ℕ)
        → AreKept part.now aim least ranks found.run.stands found.ranks.items
        → AllZip (IsKeptOf part.now least ranks) found.ranks.items longer.items) }
    ensures ahead { IfOk result (λ longer. IfSome (items_if found.longer) (λ ahead. longer.items ≡ ahead)) }
{
    let Found { ranks, run, longer } = found;
    match longer {
        Some(longer) => Ok(longer),
        None => longer_from(alloc, part, aim, ranks.as_slice(), run, packs),
    }
}

// The ranks with what they weigh.
fn told(alloc: Global, found: &[Counted]) -> Result<Vec<NextRank>, NoMemory>
    ensures { IfOk result (λ next. next.items ≡ map told_of found.now) }
{
    let mut told = Vec::with_capacity(alloc, found.len())?;
    for next in found {
        told.push(NextRank {
            rank: next.rank,
            weight: next.weight,
            support: next.support,
        })?;
    }
    Ok(told)
}
