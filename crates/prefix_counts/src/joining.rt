//! The sums of another joined with those here, list by list.

ghost use Rattle.std.specs.Prelude.{◌≡◌, ℕ, ◌+◌, ◌^◌, ◌<◌, true, [], ◌∷◌, ◌++◌, List, Some, length, slice_get, slice_index, IfOk, OnOk};
ghost use Rattle.prefix_counts.specs.Sums.{sum_of, IsTaken, AreJoined};

use super::PrefixCounts;
use mine_model::NoMemory;
use std::alloc::Global;

/// Joins the lists in the order of their numbers: so that without the last rank has a number here before.
pub(crate) fn join_all(
    alloc: Global,
    counts: &mut PrefixCounts,
    other: &PrefixCounts,
) -> Result<(), NoMemory>
    requires { (list : List ℕ) → sum_of counts.old list + sum_of other.now list < 2 ^ 64 }
    ensures { OnOk result (AreJoined counts.old other.now counts.new) }
{
    // The empty list is the first, here and there.
    let _held = counts.len();
    let count = other.len();
    let mut numbers = first_number(alloc, count)?;
    for number in 1..count {
        let place = join_next(counts, other, number, numbers.as_slice())?;
        numbers.push(place)?;
    }
    Ok(())
}

// The number here of the empty list, with room for so many.
fn first_number(alloc: Global, count: usize) -> Result<Vec<u32>, NoMemory>
    ensures { IfOk result (λ numbers. numbers.items ≡ 0 ∷ []) }
{
    let mut numbers = Vec::with_capacity(alloc, count)?;
    numbers.push(0)?;
    Ok(numbers)
}

// Joins the list with this number there. The lists before it have these numbers here.
fn join_next(
    counts: &mut PrefixCounts,
    other: &PrefixCounts,
    number: usize,
    numbers: &[u32],
) -> Result<u32, NoMemory>
    requires some { 0 < number }
    requires within { number < length other.now.lists }
    requires long { length numbers.now ≡ number }
    requires held { (k : ℕ) → k < number
        → slice_get counts.old.lists (slice_index numbers.now k) ≡ slice_get other.now.lists k }
    requires room { (list : List ℕ) → slice_get other.now.lists number ≡ Some list
        → sum_of counts.old list + sum_of other.now list < 2 ^ 64 }
    ensures { IfOk result (λ place. (list : List ℕ) → slice_get other.now.lists number ≡ Some list
        → IsTaken list true (sum_of other.now list) place counts.old counts.new) }
{
    // Each list has one number.
    let _held = other.len();
    let node = other.node(number);
    let before = number_at(numbers, node.parent);
    let place = add_longer(counts, before, node.rank, node.sum)?;
    Ok(place)
}

// The number here of the list with this number there.
fn number_at(numbers: &[u32], number: u32) -> u32
    requires { number < length numbers.now }
    ensures { result ≡ slice_index numbers.now number }
{
    numbers[number as usize]
}

// The number of the list that has the rank behind that with this number. Its sum has the weight more.
fn add_longer(
    counts: &mut PrefixCounts,
    number: u32,
    rank: u32,
    weight: u64,
) -> Result<u32, NoMemory>
    requires number { number < length counts.old.lists }
    requires room { (list : List ℕ) → slice_get counts.old.lists number ≡ Some list
        → sum_of counts.old (list ++ rank ∷ []) + weight < 2 ^ 64 }
    ensures { IfOk result (λ longer. (list : List ℕ) → slice_get counts.old.lists number ≡ Some list
        → IsTaken (list ++ rank ∷ []) true weight longer counts.old counts.new) }
{
    let longer = counts.longer(number, rank)?;
    // The list has no other number.
    let _held = counts.len();
    counts.add(longer, weight);
    Ok(longer)
}
