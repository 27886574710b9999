//! Several workers, each in a thread of its own.
ghost use Rattle.std.specs.Prelude.{◌≡◌, ℕ, ◌≤◌, List, [], ◌++◌, map, length, IfOk, OnOk, vec_len};
ghost use Rattle.search_tree.specs.Cover.{Covers};
ghost use Rattle.mine_model.specs.Limits.{most_workers};
ghost use Rattle.turn_lock.specs.Passes.{IsPassOf, number, made};
ghost use Rattle.result_board.specs.Board.{labels_of, HasRow};
ghost use Rattle.search_engine.specs.Seats.{AreTasksOf};
ghost use Rattle.search_engine.specs.Workers.{AreTasks, IsBoardOf};
ghost use Rattle.search_engine.specs.Shifts.{PostedFrom};
ghost use Rattle.search_engine.specs.Crews.{AreWorkersOf, IsEquipped, AreManned, IsDone, AreRuns};
ghost use Rattle.search_engine.specs.Crews.{AreOpened, AreLocked};

use super::crew::Crew;
use super::seats::put_all;
use super::steer::Steer;
use super::worker::Worker;
use super::working::{grow, work};
use mine_model::{Gate, NoMemory};
use mining_job::Job;
use node_pool::{Seat, Task, finish, open};
use result_board::Board;
use search_tree::Grow;
use std::alloc::Global;
use std::sync::Wait;
use std::thread::Threads;
use turn_lock::{Pass, TurnLock};
use worker_threads::done_by_each;

// One worker's whole run, after which it is given back.
fn done_by<T: Task<Ground = Job>, S: Grow<Node = T>, R: Wait, G: Gate>(
    crew: &Crew<S, R, G>,
    mut worker: Worker<T>,
) -> Result<Worker<T>, NoMemory>
    requires tasks { AreTasks (S.label_of crew.now.search.now) T.label_of (S.IsOwn crew.now.search.now)
        T.ground_of crew.now.job.now }
    requires board { IsBoardOf (S.row_of crew.now.search.now) crew.now.board.now }
    requires equipped { IsEquipped crew.now.job.now crew.now.board.now worker }
    ensures { IfOk result (IsDone (S.kids_of crew.now.search.now) crew.now.board.now worker) }
{
    work::<T, S, R, G>(crew, &mut worker)?;
    Ok(worker)
}

// The workers, with a seat and a pass each.
fn workers_of<T: Task>(
    alloc: Global,
    seats: Vec<Seat<T>>,
    passes: Vec<Pass<Board>>,
) -> Result<Vec<Worker<T>>, NoMemory>
    requires all { vec_len passes ≡ vec_len seats }
    ensures { IfOk result (λ workers. AreWorkersOf seats.items passes.items workers.items) }
{
    let mut workers = Vec::with_capacity(alloc, seats.len())?;
    let mut rest = passes.into_iter();
    'seats: for seat in seats {
        let Some(pass) = rest.next() else {
            unreachable!()
        };
        workers.push(Worker { seat, pass })?;
    }
    Ok(workers)
}

// The seats and the passes of these workers.
fn apart<T: Task>(
    alloc: Global,
    workers: Vec<Worker<T>>,
) -> Result<(Vec<Seat<T>>, Vec<Pass<Board>>), NoMemory>
    ensures { IfOk result (λ back. AreWorkersOf back.0.items back.1.items workers.items) }
{
    let mut seats = Vec::with_capacity(alloc, workers.len())?;
    let mut passes = Vec::with_capacity(alloc, workers.len())?;
    'workers: for worker in workers {
        let Worker { seat, pass } = worker;
        seats.push(seat)?;
        passes.push(pass)?;
    }
    Ok((seats, passes))
}

// Lets a worker run for each seat, with one of the passes. The first, whose deque has the roots, runs in this
// thread. So it runs at once even where no other thread can be made, and the others, which wait until all
// nodes are posted, never wait for one that has not begun.
fn worked<T: Task<Ground = Job>, S: Grow<Node = T> + Sync, R: Threads + Wait + Sync, G: Gate>(
    crew: &Crew<S, R, G>,
    seats: Vec<Seat<T>>,
    passes: Vec<Pass<Board>>,
) -> Result<(Vec<Seat<T>>, Vec<Pass<Board>>), NoMemory>
where
    S::Room: Send,
    requires tasks { AreTasks (S.label_of crew.now.search.now) T.label_of (S.IsOwn crew.now.search.now)
        T.ground_of crew.now.job.now }
    requires board { IsBoardOf (S.row_of crew.now.search.now) crew.now.board.now }
    requires all { vec_len passes ≡ vec_len seats }
    requires manned { AreManned crew.now.job.now crew.now.board.now seats.items passes.items }
    ensures { IfOk result (λ back. AreRuns (S.kids_of crew.now.search.now) crew.now.board.now
        seats.items back.0.items passes.items back.1.items) }
{
    let workers = workers_of(crew.alloc, seats, passes)?;
    let done = done_by_each(
        crew.rt,
        crew.alloc,
        workers,
        &|worker: Worker<T>| -> Result<Worker<T>, NoMemory>
            requires tasks { AreTasks (S.label_of crew.now.search.now) T.label_of
                (S.IsOwn crew.now.search.now) T.ground_of crew.now.job.now }
            requires board { IsBoardOf (S.row_of crew.now.search.now) crew.now.board.now }
            requires equipped { IsEquipped crew.now.job.now crew.now.board.now worker }
            ensures { IfOk result
                (IsDone (S.kids_of crew.entry.now.search.now) crew.entry.now.board.now worker) }
        { done_by::<T, S, R, G>(crew, worker) },
    )?;
    let back = apart(crew.alloc, done)?;
    Ok(back)
}

// Grows these nodes and all below them, and posts their labels.
fn grow_rest<T: Task<Ground = Job>, S: Grow<Node = T>, R: Wait, G: Gate>(
    crew: &Crew<S, R, G>,
    pass: &mut Pass<Board>,
    mut rest: Vec<T>,
) -> Result<(), NoMemory>
    requires tasks { AreTasks (S.label_of crew.now.search.now) T.label_of (S.IsOwn crew.now.search.now)
        T.ground_of crew.now.job.now }
    requires board { IsBoardOf (S.row_of crew.now.search.now) crew.now.board.now }
    requires pass { IsPassOf crew.now.board.now pass.old }
    requires own { AreTasksOf T.ground_of crew.now.job.now rest.items }
    ensures pass { IsPassOf crew.now.board.now pass.new × (number pass.new ≡ number pass.old) }
    ensures posted { OnOk result ((posted : List (List ℕ)) × (made pass.new ≡ made pass.old ++ posted)
        × PostedFrom (S.kids_of crew.now.search.now) (map T.label_of rest.items) posted []) }
{
    let mut room = crew.search.room(crew.alloc)?;
    'nodes: for _ in crew.rt.forever() {
        let Some(node) = rest.pop() else {
            return Ok(());
        };
        let mut kids = grow::<T, S, R, G>(crew, node, pass, &mut room)?;
        rest.append(&mut kids)?;
    }
    unreachable!()
}

// Opens a pool, and puts the roots into its first deque. Answers the seats, and the roots that found no room.
fn opened<T: Task>(
    alloc: Global,
    home: &T::Ground,
    roots: Vec<T>,
    workers: u32,
) -> Result<(Vec<Seat<T>>, Vec<T>), NoMemory>
    requires own { AreTasksOf T.ground_of home.now roots.items }
    requires some { 1 ≤ workers }
    requires few { workers ≤ most_workers }
    ensures count { IfOk result (λ o. vec_len o.0 ≡ workers) }
    ensures opened { IfOk result (λ o. AreOpened T.label_of T.ground_of home.now
        (map T.label_of roots.items) o.0.items o.1.items) }
{
    let mut seats = open(alloc, workers, home)?;
    let mut rest = Vec::new(alloc);
    let mut first = seats.remove(0);
    put_all(&mut first, roots, &mut rest)?;
    seats.insert(0, first)?;
    Ok((seats, rest))
}

// The board of the job under a lock, a pass for each worker, and the caller's own.
fn locked(
    alloc: Global,
    job: &Job,
    workers: u32,
) -> Result<(TurnLock<Board>, Vec<Pass<Board>>, Pass<Board>), NoMemory>
    requires few { workers ≤ most_workers }
    ensures count { IfOk result (λ l. vec_len l.1 ≡ workers) }
    ensures locked { IfOk result (λ l. AreLocked job.now l.0 l.1.items l.2) }
{
    let (board, mut passes) = TurnLock::new(alloc, Board::new(alloc, job), workers + 1)?;
    let Some(own) = passes.pop() else {
        unreachable!()
    };
    Ok((board, passes, own))
}

/// The board of the job on which these roots and all below them are posted, by so many workers and, where
/// they left any over, by the caller. Each worker has a thread of its own, where one can be made.
pub fn posted<T: Task<Ground = Job>, S: Grow<Node = T> + Sync, R: Threads + Wait + Sync, G: Gate>(
    rt: &R,
    alloc: Global,
    search: &S,
    job: &Job,
    roots: Vec<T>,
    workers: u32,
    gate: &G,
) -> Result<Board, NoMemory>
where
    S::Room: Send,
    requires tasks { AreTasks (S.label_of search.now) T.label_of (S.IsOwn search.now) T.ground_of job.now }
    requires rows { (label : List ℕ) → 1 ≤ length label → HasRow job.now label (S.row_of search.now label) }
    requires own { AreTasksOf T.ground_of job.now roots.items }
    requires some { 1 ≤ workers }
    requires few { workers ≤ most_workers }
    ensures problem { IfOk result (λ board. board.problem ≡ job.now) }
    ensures cover { IfOk result (λ board.
        Covers (map T.label_of roots.items) (S.kids_of search.now) (labels_of board.posted)) }
{
    let count = roots.len();
    let (seats, mut rest) = opened::<T>(alloc, job, roots, workers)?;
    let steer = Steer::new(count.saturating_sub(rest.len()) as u64);
    let (board, passes, mut own) = locked(alloc, job, workers)?;
    let crew = Crew {
        rt,
        alloc,
        search,
        job,
        board: &board,
        steer: &steer,
        gate,
    };
    let (seats, mut passes) = worked::<T, S, R, G>(&crew, seats, passes)?;
    let mut left = finish(alloc, seats)?;
    rest.append(&mut left)?;
    grow_rest::<T, S, R, G>(&crew, &mut own, rest)?;
    passes.push(own)?;
    Ok(board.close(passes))
}
