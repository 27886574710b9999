//! What follows a prefix in its sequence.

ghost use Rattle.std.specs.Prelude.{◌≡◌, ℕ, ◌≤◌, ◌<◌, ◌^◌, false, length, All, IfOk, OnOk};
ghost use Rattle.place_walk.specs.Courses.{course_of};
ghost use Rattle.place_walk.specs.Visits.{AreVisits};
ghost use Rattle.stand_sums.specs.Writings.{IsReadable};
ghost use Rattle.stand_sums.specs.Sequences.{IsSequence};
ghost use Rattle.stand_sums.specs.Sums.{AreLaidOut};
ghost use Rattle.candidate_graph.specs.Courses.{AreStandsOn};
ghost use Rattle.candidate_graph.specs.Kept.{AreFound, AreInRun};

use mine_model::NoMemory;
use place_walk::{Stand, Stands, Visit, Visits, walk_some};
use stand_sums::{Aim, Files, NextRank, Outputs, Run, Sums};
use std::alloc::Global;
use walk_memo::Memo;
use walk_places::Places;

/// Walks from the stands of a prefix in one sequence.
pub(crate) fn walk<const W: usize>(
    memo: &mut Memo<W>,
    places: &Places,
    stands: &[Stand],
    visits: &mut Visits,
) -> Result<(), NoMemory>
    requires width { W ≤ 17 }
    requires few { length places.now < 2 ^ 32 }
    requires moves { All (λ entry. entry.of < length memo.old.moves) places.now }
    requires some { 0 < length stands.now }
    requires stands { AreStandsOn (course_of memo.old places.now) stands.now }
    ensures rows { memo.new.rows ≡ memo.old.rows }
    ensures moves { memo.new.moves ≡ memo.old.moves }
    ensures visits { OnOk result (AreVisits (course_of memo.old places.now) stands.now visits.new) }
{
    walk_some(memo, places, &Stands::of(stands), 0, visits)?;
    Ok(())
}

/// The ranks that follow in a sequence with these visits, with places for their stands.
pub(crate) fn find<T: Outputs>(
    alloc: Global,
    table: &T,
    aim: Aim,
    visits: &[Visit],
    sums: &mut Sums,
) -> Result<Vec<NextRank>, NoMemory>
    requires readable { All (IsReadable (T.ranks table.now) (T.CanAsk table.now) (length sums.old))
        visits.now }
    requires marked { IsSequence visits.now }
    ensures room { length sums.new ≡ length sums.old }
    ensures found { IfOk result (λ found.
        AreFound (T.ranks table.now) aim (length sums.old) visits.now found.items) }
{
    sums.clear();
    sums.add(table, aim, &[], visits)?;
    sums.reaching(alloc, 1, 1)
}

/// The stands of the prefixes with these ranks, in one run.
pub(crate) fn file<T: Outputs>(
    alloc: Global,
    table: &T,
    aim: Aim,
    visits: &[Visit],
    found: &[NextRank],
    files: &mut Files,
) -> Result<Run, NoMemory>
    requires readable { All (IsReadable (T.ranks table.now) (T.CanAsk table.now) files.old.room) visits.now }
    requires marked { IsSequence visits.now }
    requires found { AreFound (T.ranks table.now) aim files.old.room visits.now found.now }
    ensures room { files.new.room ≡ files.old.room }
    ensures run { IfOk result (λ run. AreInRun (T.ranks table.now) aim visits.now found.now run.stands) }
{
    if !has_places(found) {
        return Ok(Run::new(alloc));
    }
    files.begin(alloc, found)?;
    files.file(alloc, table, aim, visits)?;
    Ok(files.finish(alloc))
}

/// Whether one of the ranks has places for stands: where all only end, none has.
fn has_places(found: &[NextRank]) -> bool
    ensures { result ≡ false → (end : ℕ) → AreLaidOut 0 found.now end → end ≡ 0 }
{
    match found.last() {
        Some(next) => 0 < next.last,
        None => false,
    }
}
