//! What follows behind each rank is counted, sequence after sequence.

ghost use Rattle.std.specs.Prelude.{◌≡◌, ℕ, ◌<◌, ◌≤◌, ◌^◌, ◌↔◌, true, false, IsTrue, List, [], Some, None, IfSome, length, slice_index_or, slice_range, Contains, All, IfOk, OnOk};
ghost use Rattle.state_bits.specs.Members.{Has};
ghost use Rattle.place_walk.specs.declared.visit.Visit.{Visit as Visited};
ghost use Rattle.place_walk.specs.Courses.{course_of};
ghost use Rattle.stand_sums.specs.Writings.{opens};
ghost use Rattle.stand_sums.specs.Sequences.{AreSequences};
ghost use Rattle.mask_sums.specs.Kept.{lacks};
ghost use Rattle.level_ahead.specs.Behind.{GoesOnBehind, CanLookBehind};
ghost use Rattle.level_ahead.specs.Counts.{AreAdded};
ghost use Rattle.level_ahead.specs.Kept.{HasGathered, behind_at, HaveOneMore, IsReadOrNone};

use super::gathered::Gathered;
use super::reading::read_visit;
use mask_sums::Masks;
use member_counts::MemberCounts;
use mine_model::NoMemory;
use place_walk::Visit;
use state_bits::StateSet;
use walk_memo::Memo;
use walk_places::Places;

/// Counts what follows behind each rank asked about in some whole sequences, behind a prefix that lacks this
/// rank or none. False where something goes on behind one of them.
pub(crate) fn count_all<const W: usize, T: Masks>(
    memo: &mut Memo<W>,
    places: &Places,
    table: &T,
    lacking: Option<u32>,
    visits: &[Visit],
    asked: &StateSet<4>,
    gathered: &mut Gathered,
    counts: &mut [MemberCounts<4>],
) -> Result<bool, NoMemory>
    requires width { W ≤ 17 }
    requires few { length places.now < 2 ^ 32 }
    requires moves { All (λ entry. entry.of < length memo.old.moves) places.now }
    requires kept { IsTrue (T.keeps table.now) }
    requires asked { All (λ visit. T.CanAsk table.now visit.kind visit.action.state) visits.now }
    requires few_ranks { IfSome lacking (λ need. need < 256) }
    requires apart { IfSome lacking (λ need. Has asked.now need → ⊥) }
    requires behind { (visit : Visited) (rank : ℕ) → Contains visits.now visit → Has asked.now rank
        → IsTrue (opens (T.ranks table.now) (lacks lacking) rank visit)
        → CanLookBehind (course_of memo.old places.now) (T.CanAsk table.now) visit }
    requires sets { (rank : ℕ) → Has asked.now rank → rank < length gathered.old.sets.items }
    requires counts { (rank : ℕ) → Has asked.now rank → rank < length counts.old }
    ensures rows { memo.new.rows ≡ memo.old.rows }
    ensures moves { memo.new.moves ≡ memo.old.moves }
    ensures sets { length gathered.new.sets.items ≡ length gathered.old.sets.items }
    ensures room { length counts.new ≡ length counts.old }
    ensures counted { IfOk result (λ ended. IsTrue ended → (sequences : List (List Visited))
        → AreSequences visits.now sequences → (rank : ℕ) → Has asked.now rank
        → AreAdded (course_of memo.old places.now) (T.ranks table.now) lacking sequences
        (behind_at counts.old rank) (behind_at counts.new rank)) }
    ensures goes { IfOk result (λ ended. ended ≡ false → (rank : ℕ) × Has asked.now rank
        × GoesOnBehind (course_of memo.old places.now) (T.ranks table.now) lacking rank visits.now) }
{
    let mut from = 0;
    'sequences: while from < visits.len() {
        match read_sequence(memo, places, table, lacking, visits, from, asked, gathered)? {
            Some(end) => {
                count_sequence(gathered, counts)?;
                from = end;
            }
            None => return Ok(false),
        }
    }
    Ok(true)
}

/// Gathers what follows behind each rank asked about in the sequence that begins here. Where its visits end,
/// unless something goes on behind a rank.
fn read_sequence<const W: usize, T: Masks>(
    memo: &mut Memo<W>,
    places: &Places,
    table: &T,
    lacking: Option<u32>,
    visits: &[Visit],
    from: usize,
    asked: &StateSet<4>,
    gathered: &mut Gathered,
) -> Result<Option<usize>, NoMemory>
    requires width { W ≤ 17 }
    requires few { length places.now < 2 ^ 32 }
    requires moves { All (λ entry. entry.of < length memo.old.moves) places.now }
    requires kept { IsTrue (T.keeps table.now) }
    requires asked { All (λ visit. T.CanAsk table.now visit.kind visit.action.state) visits.now }
    requires few_ranks { IfSome lacking (λ need. need < 256) }
    requires apart { IfSome lacking (λ need. Has asked.now need → ⊥) }
    requires behind { (visit : Visited) (rank : ℕ) → Contains visits.now visit → Has asked.now rank
        → IsTrue (opens (T.ranks table.now) (lacks lacking) rank visit)
        → CanLookBehind (course_of memo.old places.now) (T.CanAsk table.now) visit }
    requires sets { (rank : ℕ) → Has asked.now rank → rank < length gathered.old.sets.items }
    requires some { from < length visits.now }
    ensures rows { memo.new.rows ≡ memo.old.rows }
    ensures moves { memo.new.moves ≡ memo.old.moves }
    ensures sets { length gathered.new.sets.items ≡ length gathered.old.sets.items }
    ensures read { IfOk result (IsReadOrNone (course_of memo.old places.now) (T.ranks table.now) lacking
        asked.now visits.now from gathered.new) }
{
    gathered.forget();
    let mut end = from;
    'visits: while end < visits.len() && (end == from || !visits[end].first) {
        if !read_visit(memo, places, table, lacking, visits[end], asked, gathered)? {
            return Ok(None);
        }
        end += 1;
    }
    Ok(Some(end))
}

/// Counts what was gathered in one sequence.
fn count_sequence(gathered: &Gathered, counts: &mut [MemberCounts<4>]) -> Result<(), NoMemory>
    requires sets { (rank : ℕ) → Has gathered.now.touched rank → rank < length gathered.now.sets.items }
    requires counts { (rank : ℕ) → Has gathered.now.touched rank → rank < length counts.old }
    ensures room { length counts.new ≡ length counts.old }
    ensures counted { OnOk result (HaveOneMore gathered.now counts.old counts.new) }
{
    for rank in gathered.touched.iter() {
        counts[rank as usize].add(&gathered.sets[rank as usize])?;
    }
    Ok(())
}
