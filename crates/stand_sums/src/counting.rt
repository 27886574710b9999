//! Visits are counted, sequence after sequence.

ghost use Rattle.std.specs.Prelude.{◌≡◌, ℕ, ◌+◌, ◌*◌, ◌^◌, ◌≤◌, ◌<◌, ◌≢◌, ◌||◌, ◌++◌, ◌∷◌, [], if◌then◌else◌, true, List, Some, length, replicate, slice_get, map, All, AllPairs, IfOk, OnOk, OnErr, IsTrue};
ghost use Rattle.place_walk.specs.declared.visit.Visit.{Visit as Visited};
ghost use Rattle.stand_sums.specs.declared.sum.Sum.{Sum as Summed};
ghost use Rattle.stand_sums.specs.Writings.{IsReadable, goes_on, stops, opens, ends};
ghost use Rattle.stand_sums.specs.Sequences.{AreSequences, weight_at};
ghost use Rattle.stand_sums.specs.Sums.{AreCounted};
ghost use Rattle.stand_sums.specs.Kept.{nothing, tally_of, met, once, latest, behind_ranks, behind_visit, behind_visits, IsSum, AreSums};

use super::aim::Aim;
use super::outputs::Outputs;
use super::sequences::sequence_end;
use super::sum::{Counted, NOTHING, Sum};
use mine_model::NoMemory;
use place_walk::Visit;
use walk_memo::Action;

/// Counts the visits of some whole sequences.
pub(crate) fn count_all<T: Outputs>(
    table: &T,
    aim: Aim,
    weights: &[u32],
    visits: &[Visit],
    number: &mut u32,
    sums: &mut [Sum],
    touched: &mut Vec<u32>,
) -> Result<(), NoMemory>
    requires readable { All (IsReadable (T.ranks table.now) (T.CanAsk table.now) (length sums.old))
        visits.now }
    requires sums { AreSums number.old sums.old touched.old.items }
    ensures room { length sums.new ≡ length sums.old }
    ensures sums { AreSums number.new sums.new touched.new.items }
    ensures counted { OnOk result ((sequences : List (List Visited)) → AreSequences visits.now sequences
        → (rank : ℕ) (before after : Summed) → slice_get sums.old rank ≡ Some before
        → slice_get sums.new rank ≡ Some after
        → AreCounted (T.ranks table.now) aim weights.now rank visits.now sequences (tally_of before)
        (tally_of after)) }
{
    let mut from = 0;
    'sequences: while from < visits.len() {
        let end = sequence_end(visits, from);
        let weight = weight_of(weights, visits[from].place);
        *number = next_number(*number)?;
        let counted = Counted {
            number: *number,
            weight,
        };
        count_sequence(table, aim, &visits[from..end], counted, sums, touched)?;
        from = end;
    }
    Ok(())
}

/// Counts the visits of one sequence.
fn count_sequence<T: Outputs>(
    table: &T,
    aim: Aim,
    visits: &[Visit],
    counted: Counted,
    sums: &mut [Sum],
    touched: &mut Vec<u32>,
) -> Result<(), NoMemory>
    requires readable { All (IsReadable (T.ranks table.now) (T.CanAsk table.now) (length sums.old))
        visits.now }
    requires number { 1 ≤ counted.number }
    requires weight { counted.weight < 2 ^ 32 }
    requires sums { AreSums counted.number sums.old touched.old.items }
    ensures room { length sums.new ≡ length sums.old }
    ensures sums { AreSums counted.number sums.new touched.new.items }
    ensures counted { OnOk result ((rank : ℕ) (before : Summed) → slice_get sums.old rank ≡ Some before
        → slice_get sums.new rank
        ≡ Some (behind_visits (T.ranks table.now) aim counted rank before visits.now)) }
{
    for visit in visits {
        count_visit(table, aim, *visit, counted, sums, touched)?;
    }
    Ok(())
}

/// Counts one visit.
#[inline]
fn count_visit<T: Outputs>(
    table: &T,
    aim: Aim,
    visit: Visit,
    counted: Counted,
    sums: &mut [Sum],
    touched: &mut Vec<u32>,
) -> Result<(), NoMemory>
    requires readable { IsReadable (T.ranks table.now) (T.CanAsk table.now) (length sums.old) visit }
    requires number { 1 ≤ counted.number }
    requires weight { counted.weight < 2 ^ 32 }
    requires sums { AreSums counted.number sums.old touched.old.items }
    ensures room { length sums.new ≡ length sums.old }
    ensures sums { AreSums counted.number sums.new touched.new.items }
    ensures counted { OnOk result ((rank : ℕ) (before : Summed) → slice_get sums.old rank ≡ Some before
        → slice_get sums.new rank
        ≡ Some (behind_visit (T.ranks table.now) aim counted rank before visit)) }
{
    let ranks = table.outputs(visit.kind, visit.action.state);
    if aim.sees_any() {
        count_alike(
            ranks,
            visit.action.more,
            visit.action.ends,
            counted,
            sums,
            touched,
        )
    } else {
        count_each(ranks, aim, visit.action, counted, sums, touched)
    }
}

/// Counts a visit that writes these ranks and goes on behind each of them or not, and ends or not: each of
/// the four has a loop of its own.
#[inline(always)]
fn count_alike(
    ranks: &[u32],
    opening: bool,
    ending: bool,
    counted: Counted,
    sums: &mut [Sum],
    touched: &mut Vec<u32>,
) -> Result<(), NoMemory>
    requires within { All (λ rank. rank < length sums.old) ranks.now }
    requires once { AllPairs (λ one other. one ≢ other) ranks.now }
    requires number { 1 ≤ counted.number }
    requires weight { counted.weight < 2 ^ 32 }
    requires sums { AreSums counted.number sums.old touched.old.items }
    ensures room { length sums.new ≡ length sums.old }
    ensures sums { AreSums counted.number sums.new touched.new.items }
    ensures counted { OnOk result ((rank : ℕ) (before : Summed) → slice_get sums.old rank ≡ Some before
        → slice_get sums.new rank
        ≡ Some (behind_ranks (λ other. opening) (λ other. ending) counted rank ranks.now before)) }
{
    if opening {
        if ending {
            count_ranks(ranks, true, true, counted, sums, touched)
        } else {
            count_ranks(ranks, true, false, counted, sums, touched)
        }
    } else if ending {
        count_ranks(ranks, false, true, counted, sums, touched)
    } else {
        Ok(())
    }
}

/// The same where it goes on or ends.
#[inline(always)]
fn count_ranks(
    ranks: &[u32],
    opening: bool,
    ending: bool,
    counted: Counted,
    sums: &mut [Sum],
    touched: &mut Vec<u32>,
) -> Result<(), NoMemory>
    requires some { IsTrue (opening || ending) }
    requires within { All (λ rank. rank < length sums.old) ranks.now }
    requires once { AllPairs (λ one other. one ≢ other) ranks.now }
    requires number { 1 ≤ counted.number }
    requires weight { counted.weight < 2 ^ 32 }
    requires sums { AreSums counted.number sums.old touched.old.items }
    ensures room { length sums.new ≡ length sums.old }
    ensures sums { AreSums counted.number sums.new touched.new.items }
    ensures counted { OnOk result ((rank : ℕ) (before : Summed) → slice_get sums.old rank ≡ Some before
        → slice_get sums.new rank
        ≡ Some (behind_ranks (λ other. opening) (λ other. ending) counted rank ranks.now before)) }
{
    for rank in ranks {
        count_rank(*rank, opening, ending, counted, sums, touched)?;
    }
    Ok(())
}

/// Counts a visit that writes these ranks, and goes on or ends as the aim is seen with each.
fn count_each(
    ranks: &[u32],
    aim: Aim,
    action: Action,
    counted: Counted,
    sums: &mut [Sum],
    touched: &mut Vec<u32>,
) -> Result<(), NoMemory>
    requires within { All (λ rank. rank < length sums.old) ranks.now }
    requires once { AllPairs (λ one other. one ≢ other) ranks.now }
    requires number { 1 ≤ counted.number }
    requires weight { counted.weight < 2 ^ 32 }
    requires sums { AreSums counted.number sums.old touched.old.items }
    ensures room { length sums.new ≡ length sums.old }
    ensures sums { AreSums counted.number sums.new touched.new.items }
    ensures counted { OnOk result ((rank : ℕ) (before : Summed) → slice_get sums.old rank ≡ Some before
        → slice_get sums.new rank ≡ Some (behind_ranks (λ other. goes_on aim other action)
        (λ other. stops aim other action) counted rank ranks.now before)) }
{
    for rank in ranks {
        let opening = aim.goes_on(*rank, action);
        let ending = aim.stops(*rank, action);
        if opening || ending {
            count_rank(*rank, opening, ending, counted, sums, touched)?;
        }
    }
    Ok(())
}

/// Counts a visit that writes the rank, and goes on or ends.
#[inline(always)]
fn count_rank(
    rank: u32,
    opening: bool,
    ending: bool,
    counted: Counted,
    sums: &mut [Sum],
    touched: &mut Vec<u32>,
) -> Result<(), NoMemory>
    requires some { IsTrue (opening || ending) }
    requires rank { rank < length sums.old }
    requires number { 1 ≤ counted.number }
    requires weight { counted.weight < 2 ^ 32 }
    requires sums { AreSums counted.number sums.old touched.old.items }
    ensures room { length sums.new ≡ length sums.old }
    ensures sums { AreSums counted.number sums.new touched.new.items }
    ensures this { OnOk result ((before : Summed) → slice_get sums.old rank ≡ Some before
        → slice_get sums.new rank ≡ Some (met counted opening ending before)) }
    ensures others { OnOk result ((other : ℕ) → (other ≡ rank → ⊥)
        → slice_get sums.new other ≡ slice_get sums.old other) }
{
    let before = sums[rank as usize];
    let stands = with_stand(before.stands, opening)?;
    if before.followed == 0 {
        note(rank, touched)?;
    }
    count_in(&mut sums[rank as usize], opening, ending, stands, counted);
    Ok(())
}

/// Counts it in the sum, with so many stands then.
#[inline(always)]
fn count_in(sum: &mut Sum, opening: bool, ending: bool, stands: u32, counted: Counted)
    requires some { IsTrue (opening || ending) }
    requires sum { IsSum counted.number sum.old }
    requires stands { stands ≡ (if opening then sum.old.stands + 1 else sum.old.stands) }
    ensures { sum.new ≡ met counted opening ending sum.old }
{
    sum.weight = with_weight(sum.weight, sum.followed, counted);
    sum.followed = counted.number;
    if ending {
        sum.support = with_weight(sum.support, sum.ended, counted);
        sum.ended = counted.number;
    }
    if opening {
        sum.longer = with_weight(sum.longer, sum.opened, counted);
        sum.opened = counted.number;
        sum.stands = stands;
    }
}

/// The stands with one more, if there is one more.
#[inline]
fn with_stand(stands: u32, opening: bool) -> Result<u32, NoMemory>
    ensures { IfOk result (λ now. now ≡ (if opening then stands + 1 else stands)) }
{
    if opening {
        return stands.checked_add(1).ok_or(NoMemory);
    }
    Ok(stands)
}

/// Notes that the rank was met.
#[cold]
#[inline(never)]
fn note(rank: u32, touched: &mut Vec<u32>) -> Result<(), NoMemory>
    ensures ok { OnOk result (touched.new.items ≡ touched.old.items ++ rank ∷ []) }
    ensures none { OnErr result (touched.new.items ≡ touched.old.items) }
{
    touched.push(rank)?;
    Ok(())
}

/// The sum with the weight of the sequence, if it was last added to in another.
#[inline]
fn with_weight(sum: u64, last: u32, counted: Counted) -> u64
    requires last { last ≤ counted.number }
    requires small { sum ≤ last * 2 ^ 32 }
    ensures { result ≡ once true counted last sum }
{
    if last < counted.number {
        sum + u64::from(counted.weight)
    } else {
        sum
    }
}

/// What the sequence of the place weighs.
#[inline]
fn weight_of(weights: &[u32], place: u32) -> u32
    ensures { result ≡ weight_at weights.now place }
{
    match weights.get(place as usize) {
        Some(weight) => *weight,
        None => 1,
    }
}

/// The number of the next sequence.
#[inline]
fn next_number(number: u32) -> Result<u32, NoMemory>
    ensures { IfOk result (λ next. next ≡ number + 1) }
{
    number.checked_add(1).ok_or(NoMemory)
}

/// Sets the sums of all ranks that were met to nothing.
pub(crate) fn forget(sums: &mut Vec<Sum>, touched: &[u32])
    requires { (number : ℕ) × AreSums number sums.old.items touched.now }
    ensures { sums.new.items ≡ replicate (length sums.old.items) nothing }
{
    for rank in touched {
        sums[*rank as usize] = NOTHING;
    }
}
