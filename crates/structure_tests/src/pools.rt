//! The pool of nodes.
ghost use Rattle.std.specs.Prelude.{◌≡◌, ◌≢◌, ◌<◌, ◌≤◌, ◌+◌, ◌*◌, ℕ, [], ◌∷◌, All, IfOk, Some};
ghost use Rattle.std.specs.Prelude.{length, slice_get, vec_len};
ghost use Rattle.node_pool.specs.Pool.{seat_ground, IsWholePool, SameSeat};
ghost use Rattle.structure_tests.specs.Pools.{IsPool, SameSeats};

use mine_model::NoMemory;
use node_pool::{Seat, Task, finish, open};
use std::alloc::Global;
use std::sync::atomic::{AtomicU64, Ordering};
use std::thread;
use std::thread::Threads;
use test_facts::first_false;

/// A task that is its label.
#[derive(Drop)]
struct Number {
    label: u32,
}

impl Task for Number {
    type Ground = ();

    ghost use Rattle.std.specs.Prelude.{[], ◌∷◌};

    ghost label_of = { λ n. n.label ∷ [] };

    ghost ground_of = { λ _. tt };
}

type Pool = Vec<Seat<Number>>;

fn put(seats: &mut Pool, by: usize, label: u32) -> bool
    requires pool { IsPool tt seats.old.items }
    requires within { by < vec_len seats.old }
    ensures pool { IsPool tt seats.new.items }
    ensures count { vec_len seats.new ≡ vec_len seats.old }
{
    seats[by].put(Number { label }).is_ok()
}

fn take(seats: &mut Pool, by: usize) -> Option<u32>
    requires pool { IsPool tt seats.old.items }
    requires within { by < vec_len seats.old }
    ensures pool { IsPool tt seats.new.items }
    ensures count { vec_len seats.new ≡ vec_len seats.old }
{
    Some(seats[by].take()?.label)
}

fn steal(seats: &mut Pool, by: usize, from: u32) -> Option<u32>
    requires pool { IsPool tt seats.old.items }
    requires within { (by < vec_len seats.old) × (from < vec_len seats.old) × (from ≢ by) }
    ensures pool { IsPool tt seats.new.items }
    ensures count { vec_len seats.new ≡ vec_len seats.old }
{
    Some(seats[by].steal(from)?.label)
}

/// Seat 0 puts the labels 1, 2 and so on, each other seat up to `thieves` steals from it once, and then seat
/// 0 takes so many times. Adds what the steals and the takes answer, and tells whether each label was put.
fn act(
    seats: &mut Pool,
    answers: &mut Vec<Option<u32>>,
    puts: u32,
    thieves: u32,
    takes: u32,
) -> Result<bool, NoMemory>
    requires pool { IsPool tt seats.old.items }
    requires within { thieves < vec_len seats.old }
    ensures pool { IsPool tt seats.new.items }
    ensures count { vec_len seats.new ≡ vec_len seats.old }
{
    let mut are_put = true;
    'puts: for label in 0..puts {
        are_put = put(seats, 0, label + 1) && are_put;
    }
    'steals: for thief in 0..thieves {
        answers.push(steal(seats, thief as usize + 1, 0))?;
    }
    'takes: for _ in 0..takes {
        answers.push(take(seats, 0))?;
    }
    Ok(are_put)
}

/// The labels that are left in a pool, rising.
fn left_in(alloc: Global, seats: Pool) -> Result<Vec<u32>, NoMemory>
    requires { IsPool tt seats.items }
{
    let mut left = Vec::new(alloc);
    for task in finish(alloc, seats)? {
        left.push(task.label)?;
    }
    left.sort_unstable();
    Ok(left)
}

/// Whether the seats of a new pool act so, and these labels are left.
fn is_played(
    alloc: Global,
    workers: u32,
    puts: u32,
    thieves: u32,
    takes: u32,
    want: &[Option<u32>],
    left: &[u32],
) -> Result<bool, NoMemory>
    requires { (1 ≤ workers) × (workers ≤ 64) × (thieves < workers) }
{
    let mut answers = Vec::new(alloc);
    let mut seats = open::<Number>(alloc, workers, &())?;
    let are_put = act(&mut seats, &mut answers, puts, thieves, takes)?;
    let labels = left_in(alloc, seats)?;
    Ok(are_put && answers.as_slice() == want && labels.as_slice() == left)
}

/// The number of the first pool that is played otherwise.
fn wrong_play(alloc: Global) -> Result<Option<usize>, NoMemory> {
    let facts = [
        is_played(alloc, 2, 3, 1, 1, &[Some(1), Some(3)], &[2])?,
        is_played(alloc, 1, 0, 0, 1, &[None], &[])?,
        is_played(alloc, 3, 4, 2, 0, &[Some(1), Some(2)], &[3, 4])?,
    ];
    Ok(first_false(&facts))
}

#[test]
fn the_newest_to_its_owner_and_the_oldest_to_a_thief(rt: HostRuntime) {
    assert_eq!(rt; wrong_play(rt.alloc()), Ok(None));
}

/// Whether a seat gets nothing from an empty deque, then the one task that its owner puts, and then nothing.
fn meet(seats: &mut Pool, by: u32, from: u32) -> bool
    requires pool { IsPool tt seats.old.items }
    requires within { (by < vec_len seats.old) × (from < vec_len seats.old) }
    ensures pool { IsPool tt seats.new.items }
    ensures count { vec_len seats.new ≡ vec_len seats.old }
{
    if from == by {
        let early = take(seats, by as usize);
        let accepted = put(seats, from as usize, from);
        let taken = take(seats, by as usize);
        let late = take(seats, by as usize);
        return early.is_none() && accepted && taken == Some(from) && late.is_none();
    }
    let early = steal(seats, by as usize, from);
    let accepted = put(seats, from as usize, from);
    let stolen = steal(seats, by as usize, from);
    let late = steal(seats, by as usize, from);
    early.is_none() && accepted && stolen == Some(from) && late.is_none()
}

/// From how many deques of the pool the seat gets what they hold, and no more.
fn meet_all(seats: &mut Pool, by: u32, workers: u32) -> u32
    requires pool { IsPool tt seats.old.items }
    requires within { (by < workers) × (workers ≡ vec_len seats.old) }
    ensures pool { IsPool tt seats.new.items }
    ensures count { vec_len seats.new ≡ vec_len seats.old }
    ensures few { result ≤ workers }
{
    let mut met = 0;
    'deques: for from in 0..workers {
        if meet(seats, by, from) {
            met += 1;
        }
    }
    met
}

/// How many pairs of a seat and a deque meet in a new pool of so many seats.
fn meetings(alloc: Global, workers: u32) -> Result<u32, NoMemory>
    requires { (1 ≤ workers) × (workers ≤ 64) }
{
    let mut seats = open::<Number>(alloc, workers, &())?;
    let mut met = 0;
    'seats: for by in 0..workers {
        met += meet_all(&mut seats, by, workers);
    }
    Ok(met)
}

/// The number of the first pool, of one seat, of three and of 64, in which not all pairs meet.
fn wrong_meeting(alloc: Global) -> Result<Option<usize>, NoMemory> {
    let facts = [
        meetings(alloc, 1)? == 1,
        meetings(alloc, 3)? == 9,
        meetings(alloc, 64)? == 4096,
    ];
    Ok(first_false(&facts))
}

#[test]
fn each_deque_answers_each_seat(rt: HostRuntime) {
    assert_eq!(rt; wrong_meeting(rt.alloc()), Ok(None));
}

const TASKS: u32 = 10_000;

/// Counts one task that came out of the pool.
fn count(seen: &[AtomicU64], label: u32) {
    if let Some(times) = seen.get(label as usize) {
        times.fetch_add(1, Ordering::SeqCst);
    }
}

/// Puts this many tasks, from the label `first` on. One that does not fit is done at once.
fn fill(seat: &mut Seat<Number>, seen: &[AtomicU64], first: u32)
    requires ground { seat_ground seat.old ≡ Some tt }
    requires few { first ≤ TASKS }
    ensures { SameSeat seat.old seat.new }
{
    'labels: for label in first..first + TASKS {
        if let Err(back) = seat.put(Number { label }) {
            count(seen, back.label);
        }
    }
}

/// Takes a task, or else steals one.
fn seek(seat: &mut Seat<Number>) -> Option<Number>
    ensures { SameSeat seat.old seat.new }
{
    if let Some(task) = seat.take() {
        return Some(task);
    }
    'others: for from in 0..seat.workers() {
        if from != seat.number() {
            if let Some(task) = seat.steal(from) {
                return Some(task);
            }
        }
    }
    None
}

/// One worker's shift. The first two workers put tasks.
fn shift(seat: &mut Seat<Number>, seen: &[AtomicU64])
    requires { seat_ground seat.old ≡ Some tt }
    ensures { SameSeat seat.old seat.new }
{
    let number = seat.number();
    if number < 2 {
        fill(seat, seen, number * TASKS);
    }
    'rounds: for _ in 0..TASKS {
        if let Some(task) = seek(seat) {
            count(seen, task.label);
        }
    }
}

/// The shifts of all workers, each in a thread of its own.
fn shifts<R: Threads + Sync>(rt: &R, seats: &mut [Seat<Number>], seen: &[AtomicU64])
    requires { All (λ s. seat_ground s ≡ Some tt) seats.old }
    ensures { SameSeats seats.old seats.new }
{
    thread::for_each_mut(rt, seats, 4, &|_, seat| shift(seat, seen));
}

/// What counts so many tasks.
fn none_seen(alloc: Global, tasks: u32) -> Result<Vec<AtomicU64>, NoMemory> {
    let mut seen = Vec::new(alloc);
    for _ in 0..tasks {
        seen.push(AtomicU64::new(0))?;
    }
    Ok(seen)
}

/// Counts each task that comes out of a pool of four workers.
fn work_off<R: Threads + Sync>(rt: &R, alloc: Global, seen: &[AtomicU64]) -> Result<(), NoMemory> {
    let mut seats = open::<Number>(alloc, 4, &())?;
    shifts(rt, seats.as_mut_slice(), seen);
    for task in finish(alloc, seats)? {
        count(seen, task.label);
    }
    Ok(())
}

/// The first task that comes out never or more than once.
fn first_wrong(seen: &[AtomicU64]) -> Option<usize> {
    for (label, times) in seen.iter().enumerate() {
        if times.load(Ordering::SeqCst) != 1 {
            return Some(label);
        }
    }
    None
}

/// The same of 20,000 tasks.
fn first_wrong_of_all<R: Threads + Sync>(rt: &R, alloc: Global) -> Result<Option<usize>, NoMemory> {
    let seen = none_seen(alloc, 2 * TASKS)?;
    work_off(rt, alloc, seen.as_slice())?;
    Ok(first_wrong(seen.as_slice()))
}

#[test]
fn each_task_comes_out_once(rt: HostRuntime) {
    assert_eq!(rt; first_wrong_of_all(&rt, rt.alloc()), Ok(None));
}
