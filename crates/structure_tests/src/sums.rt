//! Sums of weights by lists of ranks.
ghost use Rattle.std.specs.Prelude.{◌≤◌, ◌<◌};

use mine_model::NoMemory;
use pattern_counts::PatternCounts;
use std::alloc::Global;
use std::marker::Model;

/// Counts whose sums stay below 64 bits, since their total does.
#[derive(Drop)]
struct Ledger {
    counts: PatternCounts,
    total: u64,
}

impl Model for Ledger {
    ghost use Rattle.std.specs.Prelude.{List, ℕ, ◌≤◌};
    ghost use Rattle.pattern_counts.specs.Tally.{Tally, sum_of};

    ghost Value = { Tally };

    ghost view = { λ l. l.counts };

    ghost invariant = { λ l. (list : List ℕ) → sum_of l.counts list ≤ l.total };
}

impl Ledger {
    fn new(alloc: Global) -> Ledger {
        Ledger {
            counts: PatternCounts::new(alloc),
            total: 0,
        }
    }

    fn add(&mut self, list: &[u32], weight: u64) -> Result<(), NoMemory> {
        let Some(total) = self.total.checked_add(weight) else {
            return Err(NoMemory);
        };
        self.counts.add(list, weight)?;
        self.total = total;
        Ok(())
    }

    fn add_all(&mut self, other: &Ledger) -> Result<(), NoMemory> {
        let Some(total) = self.total.checked_add(other.total) else {
            return Err(NoMemory);
        };
        self.counts.add_all(&other.counts)?;
        self.total = total;
        Ok(())
    }

    fn clear(&mut self) {
        self.counts.clear();
        self.total = 0;
    }

    fn len(&self) -> usize {
        self.counts.len()
    }

    /// Whether the list with this number is this one, with this sum.
    fn has(&self, number: usize, list: &[u32], sum: u64) -> bool {
        number < self.counts.len()
            && self.counts.list(number) == list
            && self.counts.sum(number) == sum
    }
}

// The tests own their values in one function with one exit, and do their work in another.

fn do_each_call(ledger: &mut Ledger) -> Result<bool, NoMemory> {
    let empty = ledger.counts.is_empty();
    ledger.add(&[7, 3], 5)?;
    ledger.add(&[], 2)?;
    ledger.add(&[7], 9)?;
    ledger.add(&[7, 3], 1)?;
    ledger.add(&[], 0)?;
    let held = ledger.len() == 3
        && ledger.has(0, &[7, 3], 6)
        && ledger.has(1, &[], 2)
        && ledger.has(2, &[7], 9);
    ledger.clear();
    let cleared = ledger.counts.is_empty();
    ledger.add(&[7], 4)?;
    Ok(empty && held && cleared && ledger.len() == 1 && ledger.has(0, &[7], 4))
}

#[test]
fn each_call_does_its_work(rt: HostRuntime) {
    let mut ledger = Ledger::new(rt.alloc());
    assert_eq!(rt; do_each_call(&mut ledger), Ok(true));
}

// Adds the lists that begin with this rank: of one, of two and of three ranks, each a prefix of the next.
fn add_prefixes(ledger: &mut Ledger, rank: u32) -> Result<(), NoMemory> {
    let list = [rank, rank / 2, 3];
    ledger.add(&list[..1], u64::from(rank))?;
    ledger.add(&list[..2], 10)?;
    ledger.add(&list, 1)
}

fn has_prefixes(ledger: &Ledger, place: usize, rank: u32, times: u64) -> bool
    requires place { place < 1000000 }
    requires times { times < 1000 }
{
    let list = [rank, rank / 2, 3];
    ledger.has(3 * place, &list[..1], times * u64::from(rank))
        && ledger.has(3 * place + 1, &list[..2], times * 10)
        && ledger.has(3 * place + 2, &list, times)
}

fn add_ranks(ledger: &mut Ledger, from: u32, to: u32) -> Result<(), NoMemory> {
    for rank in from..to {
        add_prefixes(ledger, rank)?;
    }
    Ok(())
}

// Whether the lists of these ranks have the numbers from `place` on.
fn has_ranks(ledger: &Ledger, place: usize, from: u32, to: u32, times: u64) -> bool
    requires place { place < 1000 }
    requires to { to ≤ 100000 }
    requires times { times < 1000 }
{
    for rank in from..to {
        if !has_prefixes(ledger, place + (rank - from) as usize, rank, times) {
            return false;
        }
    }
    true
}

fn grow_and_find(ledger: &mut Ledger) -> Result<bool, NoMemory> {
    for times in 1..4u64 {
        add_ranks(ledger, 0, 2_000)?;
        if ledger.len() != 6_000 || !has_ranks(ledger, 0, 0, 2_000, times) {
            return Ok(false);
        }
    }
    Ok(true)
}

#[test]
fn each_list_is_found_at_every_size(rt: HostRuntime) {
    let mut ledger = Ledger::new(rt.alloc());
    assert_eq!(rt; grow_and_find(&mut ledger), Ok(true));
}

fn long_list(last: u32) -> [u32; 1024] {
    let mut list = [5; 1024];
    list[1023] = last;
    list
}

fn add_long_lists(ledger: &mut Ledger) -> Result<bool, NoMemory> {
    for last in 0..300u32 {
        ledger.add(&long_list(last), 2)?;
        ledger.add(&[5; 1023], 1)?;
        ledger.add(&long_list(last), 3)?;
    }
    Ok(
        ledger.len() == 301
            && ledger.has(0, &long_list(0), 5)
            && ledger.has(1, &[5; 1023], 300)
            && ledger.has(300, &long_list(299), 5),
    )
}

#[test]
fn lists_of_a_thousand_ranks_differ_in_the_last(rt: HostRuntime) {
    let mut ledger = Ledger::new(rt.alloc());
    assert_eq!(rt; add_long_lists(&mut ledger), Ok(true));
}

fn add_blocks(block: &mut Ledger, shard: &mut Ledger) -> Result<bool, NoMemory> {
    shard.add_all(block)?;
    let none = shard.counts.is_empty();
    add_ranks(block, 100, 400)?;
    shard.add_all(block)?;
    let one = shard.len() == 900 && has_ranks(shard, 0, 100, 400, 1);
    shard.add_all(block)?;
    let two = shard.len() == 900 && has_ranks(shard, 0, 100, 400, 2);
    block.clear();
    shard.add_all(block)?;
    add_ranks(block, 390, 500)?;
    shard.add_all(block)?;
    let more = shard.len() == 1_200
        && has_ranks(shard, 0, 100, 390, 2)
        && has_ranks(shard, 290, 390, 400, 3)
        && has_ranks(shard, 300, 400, 500, 1);
    Ok(none && one && two && more && has_ranks(block, 0, 390, 500, 1))
}

#[test]
fn all_sums_of_another_are_added(rt: HostRuntime) {
    let mut block = Ledger::new(rt.alloc());
    let mut shard = Ledger::new(rt.alloc());
    assert_eq!(rt; add_blocks(&mut block, &mut shard), Ok(true));
}

fn is_cleared(ledger: &mut Ledger, count: u32) -> Result<bool, NoMemory>
    requires { count ≤ 100000 }
{
    add_ranks(ledger, 0, count)?;
    let held = ledger.len() == 3 * count as usize && has_ranks(ledger, 0, 0, count, 1);
    ledger.clear();
    Ok(held && ledger.counts.is_empty())
}

// The few lists after many leave most slots of the table as they are.
fn clear_often(ledger: &mut Ledger) -> Result<bool, NoMemory> {
    Ok(
        is_cleared(ledger, 2_000)?
            && is_cleared(ledger, 2)?
            && is_cleared(ledger, 400)?
            && is_cleared(ledger, 0)?
            && is_cleared(ledger, 2_000)?
            && is_cleared(ledger, 30)?
            && is_cleared(ledger, 2_500)?,
    )
}

#[test]
fn few_and_many_lists_are_forgotten(rt: HostRuntime) {
    let mut ledger = Ledger::new(rt.alloc());
    assert_eq!(rt; clear_often(&mut ledger), Ok(true));
}

// Ranks whose lists begin their search at the last slot of a table of up to 256 slots.
const CROWD: [u32; 64] = [
    54, 139, 381, 696, 866, 999, 1_040, 1_375, 1_537, 1_868, 2_212, 2_531, 2_773, 3_085, 3_400,
    3_767, 3_961, 4_305, 4_394, 4_636, 4_955, 5_299, 5_477, 5_630, 5_792, 6_127, 6_168, 6_471,
    6_786, 7_028, 7_340, 7_659, 8_022, 8_334, 8_560, 8_895, 9_210, 9_239, 9_554, 9_732, 10_051,
    10_427, 10_726, 10_920, 11_053, 11_397, 11_599, 11_914, 12_156, 12_273, 12_585, 12_819, 13_150,
    13_494, 13_821, 13_991, 14_306, 14_367, 14_480, 14_682, 14_977, 15_179, 15_523, 15_652,
];

fn add_crowd(ledger: &mut Ledger, crowd: &[u32]) -> Result<bool, NoMemory> {
    for rank in crowd {
        ledger.add(&[*rank], 1)?;
    }
    for (number, rank) in crowd.iter().enumerate() {
        ledger.add(&[*rank], 4)?;
        if !ledger.has(number, &[*rank], 5) {
            return Ok(false);
        }
    }
    Ok(ledger.len() == crowd.len())
}

fn add_crowd_twice(ledger: &mut Ledger, crowd: &[u32]) -> Result<bool, NoMemory> {
    let first = add_crowd(ledger, crowd)?;
    ledger.clear();
    Ok(first && ledger.counts.is_empty() && add_crowd(ledger, crowd)?)
}

#[test]
fn lists_that_begin_at_one_slot_are_told_apart(rt: HostRuntime) {
    let mut ledger = Ledger::new(rt.alloc());
    assert_eq!(rt; add_crowd_twice(&mut ledger, &CROWD), Ok(true));
}
