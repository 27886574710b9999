//! What a worker does with its seat.
ghost use Rattle.std.specs.Prelude.{◌≡◌, ◌≢◌, ℕ, ◌≤◌, ◌<◌, ◌⊎◌, true, List, ◌++◌, length, map, All, Some};
ghost use Rattle.std.specs.Prelude.{IfSome, IfNone, IfOk, OnOk};
ghost use Rattle.mine_model.specs.Labels.{SameLabels};
ghost use Rattle.node_pool.specs.Pool.{number_of, pool_of, seat_ground, is_dry, given, got, SameSeat};
ghost use Rattle.search_engine.specs.Seats.{AreTasksOf, GotTask, HasFound, HasNext};

use super::steer::Steer;
use mine_model::NoMemory;
use node_pool::{Seat, Task};
use std::sync::Wait;

/// Puts the tasks into the own deque. Those that find no room there stay in the overflow.
pub(crate) fn put_all<T: Task>(
    seat: &mut Seat<T>,
    tasks: Vec<T>,
    overflow: &mut Vec<T>,
) -> Result<(), NoMemory>
    requires tasks { All (λ task. seat_ground seat.old ≡ Some (T.ground_of task)) tasks.items }
    ensures seat { SameSeat seat.old seat.new }
    ensures got { got seat.new ≡ got seat.old }
    ensures put { OnOk result ((put kept : List (List ℕ)) × (given seat.new ≡ given seat.old ++ put)
        × (map T.label_of overflow.new.items ≡ map T.label_of overflow.old.items ++ kept)
        × SameLabels (map T.label_of tasks.items) (put ++ kept)) }
    ensures overflow { OnOk result ((home : T.Ground) → seat_ground seat.old ≡ Some home
        → AreTasksOf T.ground_of home overflow.old.items → AreTasksOf T.ground_of home overflow.new.items) }
{
    'tasks: for task in tasks {
        if let Err(back) = seat.put(task) {
            overflow.push(back)?;
        }
    }
    Ok(())
}

/// The next task of the worker: of its overflow, of its own deque, or of another's, waited for while some are
/// not done yet. None where all are.
pub(crate) fn next_task<T: Task, R: Wait>(
    rt: &R,
    seat: &mut Seat<T>,
    overflow: &mut Vec<T>,
    steer: &Steer,
) -> Result<Option<T>, NoMemory>
    ensures same { SameSeat seat.old seat.new }
    ensures given { given seat.new ≡ given seat.old }
    ensures next { IfOk result (λ next.
        HasNext T.label_of T.ground_of next seat.old seat.new overflow.old.items overflow.new.items) }
{
    match overflow.pop() {
        Some(task) => Ok(Some(task)),
        None => fetched(rt, seat, steer),
    }
}

// A task of a deque, waited for while some are not done yet. None where all are.
fn fetched<T: Task, R: Wait>(
    rt: &R,
    seat: &mut Seat<T>,
    steer: &Steer,
) -> Result<Option<T>, NoMemory>
    ensures same { SameSeat seat.old seat.new }
    ensures given { given seat.new ≡ given seat.old }
    ensures found { IfOk result (λ task. HasFound T.label_of T.ground_of task seat.old seat.new) }
{
    let mut round: u32 = 0;
    'looks: for _ in rt.forever() {
        if steer.is_stopped() {
            return Err(NoMemory);
        }
        if let Some(task) = found(seat) {
            return Ok(Some(task));
        }
        if steer.is_done() {
            return Ok(None);
        }
        steer.rest(rt, round);
        round = round.saturating_add(1);
    }
    unreachable!()
}

// A task of the own deque, or else of another's.
fn found<T: Task>(seat: &mut Seat<T>) -> Option<T>
    ensures same { SameSeat seat.old seat.new }
    ensures given { given seat.new ≡ given seat.old }
    ensures found { HasFound T.label_of T.ground_of result seat.old seat.new }
{
    if let Some(task) = seat.take() {
        return Some(task);
    }
    let number = seat.number();
    let workers = seat.workers();
    if let Some(task) = stolen(seat, number, workers) {
        return Some(task);
    }
    stolen(seat, 0, number.min(workers))
}

// A task that is stolen from a deque from `first` on, up to `end`.
fn stolen<T: Task>(seat: &mut Seat<T>, first: u32, end: u32) -> Option<T>
    requires within { end ≤ length (pool_of seat.old) }
    ensures same { SameSeat seat.old seat.new }
    ensures given { given seat.new ≡ given seat.old }
    ensures some { IfSome result (λ task. GotTask T.label_of T.ground_of task seat.old seat.new) }
    ensures none { IfNone result (got seat.new ≡ got seat.old) }
    ensures dry { IfNone result ((k : ℕ) → (is_dry seat.old k ≡ true)
        ⊎ ((first ≤ k) × (k < end) × (k ≢ number_of seat.old)) → is_dry seat.new k ≡ true) }
{
    let own = seat.number();
    'deques: for from in first..end {
        if from == own {
            continue;
        }
        if let Some(task) = seat.steal(from) {
            return Some(task);
        }
    }
    None
}
