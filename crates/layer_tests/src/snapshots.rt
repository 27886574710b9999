//! What may follow a prefix.
ghost use Rattle.std.specs.Prelude.{◌≡◌, ◌≤◌, ◌<◌, ℕ, None, List, length, IfOk, IfSome};
ghost use Rattle.snapshot_project.specs.Stands.{IsProjected};

use super::data::{RUNNING, Shape, job};
use mine_model::NoMemory;
use mining_job::Job;
use sequence_grids::whole_alphabet;
use snapshot_project::{Grown, NextRank, Part, Room, Snapshots, begin, grow, support};
use std::alloc::Global;
use std::fmt::Write;
use std::thread::Threads;

/// What is told of the prefix with these ranks, in the part of the pivot, where longer prefixes must reach
/// this threshold.
#[derive(Clone, Copy)]
struct Asked {
    pivot: Option<u32>,
    ranks: &'static [u32],
    least: u64,
}

/// The answer as text.
fn told(alloc: Global, job: &Job, asked: Asked) -> Result<String, NoMemory> {
    let mut room = Room::new(alloc, job)?;
    told_in(alloc, job, asked, &mut room)
}

/// The same in a room that knows no part.
fn told_in<'a>(
    alloc: Global,
    job: &'a Job,
    asked: Asked,
    room: &mut Room<'a>,
) -> Result<String, NoMemory>
    requires room { length job.now.ranking.order ≤ room.old.ranks }
    requires none { room.old.part ≡ None }
{
    if job.db().sequences() < 5 {
        return Ok(String::new(alloc));
    }
    let pivot = known(asked.pivot, job.ranks().count());
    let sequences = vec![in alloc; 0, 1, 4]?;
    let alphabet = whole_alphabet(alloc, job)?;
    let (part, snapshots) = begin(alloc, job, &alphabet, pivot, sequences)?;
    told_of(
        alloc,
        &part,
        snapshots,
        asked.ranks,
        asked.least.max(1),
        room,
    )
}

/// The pivot, where it is a rank.
fn known(pivot: Option<u32>, count: u32) -> Option<u32>
    ensures least { IfSome result (λ rank. 1 ≤ rank) }
    ensures most { IfSome result (λ rank. rank ≤ count) }
{
    match pivot {
        Some(rank) if 1 <= rank && rank <= count => Some(rank),
        _ => None,
    }
}

/// What is told of the prefix that is longer by these ranks, in a room that knows no other part.
fn told_of<'a>(
    alloc: Global,
    part: &Part<'a>,
    snapshots: Snapshots,
    ranks: &[u32],
    least: u64,
    room: &mut Room<'a>,
) -> Result<String, NoMemory>
    requires least { 1 ≤ least }
    requires room { length part.now.problem.ranking.order ≤ room.old.ranks }
    requires known { IfSome room.old.part (λ known. known ≡ part.now) }
    requires projected { (ranks : List ℕ) × IsProjected part.now least ranks snapshots }
{
    let Some(snapshots) = follow(alloc, part, snapshots, ranks, least, room)? else {
        return Ok(String::from_str(alloc, "no such prefix")?);
    };
    text_of(alloc, part, &snapshots, least, room)
}

/// What is kept of the prefix that is longer by these ranks, found rank by rank.
fn follow<'a>(
    alloc: Global,
    part: &Part<'a>,
    snapshots: Snapshots,
    ranks: &[u32],
    least: u64,
    room: &mut Room<'a>,
) -> Result<Option<Snapshots>, NoMemory>
    requires least { 1 ≤ least }
    requires room { length part.now.problem.ranking.order ≤ room.old.ranks }
    requires known { IfSome room.old.part (λ known. known ≡ part.now) }
    requires projected { (ranks : List ℕ) × IsProjected part.now least ranks snapshots }
    ensures room { room.new.ranks ≡ room.old.ranks }
    ensures known { IfSome room.new.part (λ known. known ≡ part.now) }
    ensures projected { IfOk result (λ found. IfSome found (λ list.
        (ranks : List ℕ) × IsProjected part.now least ranks list)) }
{
    let mut found = snapshots;
    for rank in ranks {
        match longer_by(alloc, part, &found, *rank, least, room)? {
            Some(longer) => found = longer,
            None => return Ok(None),
        }
    }
    Ok(Some(found))
}

/// What is kept of the prefix that is longer by the rank, where it can follow.
fn longer_by<'a>(
    alloc: Global,
    part: &Part<'a>,
    snapshots: &Snapshots,
    rank: u32,
    least: u64,
    room: &mut Room<'a>,
) -> Result<Option<Snapshots>, NoMemory>
    requires least { 1 ≤ least }
    requires room { length part.now.problem.ranking.order ≤ room.old.ranks }
    requires known { IfSome room.old.part (λ known. known ≡ part.now) }
    requires projected { (ranks : List ℕ) × IsProjected part.now least ranks snapshots.now }
    ensures room { room.new.ranks ≡ room.old.ranks }
    ensures known { IfSome room.new.part (λ known. known ≡ part.now) }
    ensures projected { IfOk result (λ found. IfSome found (λ list.
        (ranks : List ℕ) × IsProjected part.now least ranks list)) }
{
    let Grown { next, mut longer } = grow(alloc, part, snapshots, least, room)?;
    let Some(place) = place_of(next.as_slice(), rank) else {
        return Ok(None);
    };
    Ok(Some(longer.swap_remove(place)))
}

/// The place of the rank among these.
fn place_of(next: &[NextRank], rank: u32) -> Option<usize>
    ensures { IfSome result (λ place. place < length next.now) }
{
    for (place, next) in next.iter().enumerate() {
        if next.rank == rank {
            return Some(place);
        }
    }
    None
}

/// The support of the prefix; each rank that can follow, with its weight and the support of the prefix with
/// it; how many ranks can follow the prefixes that are longer by the ranks 1 and 2.
fn text_of<'a>(
    alloc: Global,
    part: &Part<'a>,
    snapshots: &Snapshots,
    least: u64,
    room: &mut Room<'a>,
) -> Result<String, NoMemory>
    requires least { 1 ≤ least }
    requires room { length part.now.problem.ranking.order ≤ room.old.ranks }
    requires known { IfSome room.old.part (λ known. known ≡ part.now) }
    requires projected { (ranks : List ℕ) × IsProjected part.now least ranks snapshots.now }
{
    let grown = grow(alloc, part, snapshots, least, room)?;
    let next = text_of_next(alloc, support(part, snapshots), grown.next.as_slice())?;
    let one = count_behind(alloc, part, snapshots, 1, least, room)?;
    let two = count_behind(alloc, part, snapshots, 2, least, room)?;
    Ok(format!(in alloc; "{next}, {one} {two}")?)
}

/// The support, and each rank with its weight and its support.
fn text_of_next(alloc: Global, support: u64, next: &[NextRank]) -> Result<String, NoMemory> {
    let mut text = format!(in alloc; "{support}:")?;
    for next in next {
        write!(text, " {} {} {}", next.rank, next.weight, next.support)?;
    }
    Ok(text)
}

/// How many ranks can follow the prefix that is longer by the rank: none where the rank cannot.
fn count_behind<'a>(
    alloc: Global,
    part: &Part<'a>,
    snapshots: &Snapshots,
    rank: u32,
    least: u64,
    room: &mut Room<'a>,
) -> Result<usize, NoMemory>
    requires least { 1 ≤ least }
    requires room { length part.now.problem.ranking.order ≤ room.old.ranks }
    requires known { IfSome room.old.part (λ known. known ≡ part.now) }
    requires projected { (ranks : List ℕ) × IsProjected part.now least ranks snapshots.now }
    ensures room { room.new.ranks ≡ room.old.ranks }
    ensures known { IfSome room.new.part (λ known. known ≡ part.now) }
{
    let Some(longer) = longer_by(alloc, part, snapshots, rank, least, room)? else {
        return Ok(0);
    };
    Ok(grow(alloc, part, &longer, least, room)?.next.len())
}

const PREFIXES: [(Option<u32>, &[u32], u64, &str); 7] = [
    (None, &[], 1, "0: 3 3 0, 0 0"),
    (None, &[3], 1, "0: 1 3 3 2 2 0 3 2 0 4 1 0 5 1 0, 0 1"),
    (None, &[3], 2, "0: 1 3 3 2 2 0 3 2 0, 0 1"),
    (None, &[3, 1], 1, "3:, 0 0"),
    (None, &[3, 2], 1, "0: 1 2 2, 0 0"),
    (Some(3), &[3], 1, "0: 1 3 3 2 2 0 3 2 0, 0 1"),
    (Some(2), &[], 1, "0:, 0 0"),
];

/// The number of the first prefix of which something else is told.
fn wrong_of(alloc: Global, job: &Job) -> Result<Option<usize>, NoMemory> {
    for (number, (pivot, ranks, least, want)) in PREFIXES.iter().enumerate() {
        let asked = Asked {
            pivot: *pivot,
            ranks,
            least: *least,
        };
        if told(alloc, job, asked)?.as_str() != *want {
            return Ok(Some(number));
        }
    }
    Ok(None)
}

fn first_wrong<T: Threads + Sync>(rt: &T, alloc: Global) -> Result<Option<usize>, NoMemory> {
    let job = job(rt, alloc, Shape::Climbing, &RUNNING, 1, 2)?;
    wrong_of(alloc, &job)
}

#[test]
fn follows_prefixes_through_the_running_data(rt: HostRuntime) {
    assert_eq!(rt; first_wrong(&rt, rt.alloc()), Ok(None));
}
