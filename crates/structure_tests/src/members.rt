//! Counts of members.

use member_counts::MemberCounts;
use mine_model::NoMemory;
use state_bits::StateSet;
use std::alloc::Global;
use test_facts::first_false;

/// The set with this number: 0 is in each, 63 in every second, 64 in every third, and 255 in every hundredth.
fn set_of(number: u32) -> StateSet<4> {
    let mut set = StateSet::<4>::new();
    set.add(0);
    if number % 2 == 0 {
        set.add(63);
    }
    if number % 3 == 0 {
        set.add(64);
    }
    if number % 100 == 0 {
        set.add(255);
    }
    set
}

/// Gives so many sets.
fn give(counts: &mut MemberCounts<4>, sets: u32) -> Result<(), NoMemory> {
    for number in 0..sets {
        counts.add(&set_of(number))?;
    }
    Ok(())
}

/// How many sets have 0, 63, 64, 65 and 255.
fn some_counts(counts: &MemberCounts<4>) -> [u64; 5] {
    [
        counts.count(0),
        counts.count(63),
        counts.count(64),
        counts.count(65),
        counts.count(255),
    ]
}

/// A thousand sets are counted, and then three. The number of the first that are counted otherwise.
fn first_miscounted(counts: &mut MemberCounts<4>) -> Result<Option<usize>, NoMemory> {
    give(counts, 1_000)?;
    let are_many = some_counts(counts) == [1_000, 500, 334, 0, 10];
    counts.clear();
    give(counts, 3)?;
    let are_few = some_counts(counts) == [3, 2, 1, 0, 1];
    Ok(first_false(&[are_many, are_few]))
}

#[test]
fn counts_the_sets_of_each_member(rt: HostRuntime) {
    let mut counts = MemberCounts::<4>::new(rt.alloc());
    assert_eq!(rt; first_miscounted(&mut counts), Ok(None));
}

/// Whether these members reach the threshold.
fn are_reaching(
    alloc: Global,
    counts: &MemberCounts<4>,
    threshold: u64,
    want: &[u32],
) -> Result<bool, NoMemory> {
    let members: Vec<u32> = counts.reaching(threshold).iter().collect(alloc)?;
    Ok(members.as_slice() == want)
}

/// Of the members that reach a threshold, none of no set, and the right ones of a thousand: the number of the
/// first wrong fact.
fn wrong_fact(alloc: Global, counts: &mut MemberCounts<4>) -> Result<Option<usize>, NoMemory> {
    let is_none = counts.reaching(1).is_empty();
    give(counts, 1_000)?;
    let facts = [
        is_none,
        are_reaching(alloc, counts, 334, &[0, 63, 64])?,
        are_reaching(alloc, counts, 335, &[0, 63])?,
        counts.reaching(1_001).is_empty(),
        counts.reaching(u64::MAX).is_empty(),
    ];
    Ok(first_false(&facts))
}

#[test]
fn finds_the_members_that_reach_a_threshold(rt: HostRuntime) {
    let mut counts = MemberCounts::<4>::new(rt.alloc());
    assert_eq!(rt; wrong_fact(rt.alloc(), &mut counts), Ok(None));
}
