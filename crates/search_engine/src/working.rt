//! One worker's whole run.
ghost use Rattle.std.specs.Prelude.{◌≡◌, ℕ, List, [], ◌∷◌, ◌++◌, length, map, Some, IfOk, OnOk};
ghost use Rattle.mine_model.specs.Labels.{SameLabels};
ghost use Rattle.node_pool.specs.Pool.{pool_of, given, got, SameSeat};
ghost use Rattle.turn_lock.specs.Passes.{IsPassOf, number, made};
ghost use Rattle.search_engine.specs.Seats.{IsAllDry, AreTasksOf};
ghost use Rattle.search_engine.specs.Workers.{IsManned, IsRun, AreTasks, IsBoardOf};

use super::crew::Crew;
use super::seats::{next_task, put_all};
use super::worker::Worker;
use mine_model::{Gate, NoMemory};
use mining_job::Job;
use node_pool::Task;
use result_board::{Board, Post};
use search_tree::{Grow, Grown};
use std::sync::Wait;
use turn_lock::Pass;

/// One worker's whole run, node by node: it takes its own newest node, or steals another's oldest, passes
/// the gate, grows the node, posts its label and puts the kids. A kid that finds no room in the deque is
/// kept back and grown next. After `NoMemory`, which all workers answer once one did, the caller gives the
/// run up.
pub fn work<T: Task<Ground = Job>, S: Grow<Node = T>, R: Wait, G: Gate>(
    crew: &Crew<S, R, G>,
    worker: &mut Worker<T>,
) -> Result<(), NoMemory>
    requires tasks { AreTasks (S.label_of crew.now.search.now) T.label_of (S.IsOwn crew.now.search.now)
        T.ground_of crew.now.job.now }
    requires board { IsBoardOf (S.row_of crew.now.search.now) crew.now.board.now }
    requires manned { IsManned crew.now.job.now crew.now.board.now worker.old.seat worker.old.pass }
    ensures seat { SameSeat worker.old.seat worker.new.seat }
    ensures pass { IsPassOf crew.now.board.now worker.new.pass
        × (number worker.new.pass ≡ number worker.old.pass) }
    ensures run { OnOk result (IsRun (S.kids_of crew.now.search.now) worker.old.seat worker.new.seat
        worker.old.pass worker.new.pass) }
    ensures dry { OnOk result (IsAllDry worker.new.seat) }
    // Alone, the worker got all that it put.
    ensures alone { OnOk result (length (pool_of worker.new.seat) ≡ 1
        → SameLabels (given worker.new.seat) (got worker.new.seat)) }
{
    let outcome = grow_all::<T, S, R, G>(crew, worker);
    if outcome.is_err() {
        crew.steer.stop();
    }
    outcome
}

// The loop of `work`.
fn grow_all<T: Task<Ground = Job>, S: Grow<Node = T>, R: Wait, G: Gate>(
    crew: &Crew<S, R, G>,
    worker: &mut Worker<T>,
) -> Result<(), NoMemory>
    requires tasks { AreTasks (S.label_of crew.now.search.now) T.label_of (S.IsOwn crew.now.search.now)
        T.ground_of crew.now.job.now }
    requires board { IsBoardOf (S.row_of crew.now.search.now) crew.now.board.now }
    requires manned { IsManned crew.now.job.now crew.now.board.now worker.old.seat worker.old.pass }
    ensures seat { SameSeat worker.old.seat worker.new.seat }
    ensures pass { IsPassOf crew.now.board.now worker.new.pass
        × (number worker.new.pass ≡ number worker.old.pass) }
    ensures run { OnOk result (IsRun (S.kids_of crew.now.search.now) worker.old.seat worker.new.seat
        worker.old.pass worker.new.pass) }
    ensures dry { OnOk result (IsAllDry worker.new.seat) }
    ensures alone { OnOk result (length (pool_of worker.new.seat) ≡ 1
        → SameLabels (given worker.new.seat) (got worker.new.seat)) }
{
    let number = worker.seat.number();
    let mut room = crew.search.room(crew.alloc)?;
    let mut overflow = Vec::new(crew.alloc);
    let mut round: u64 = 0;
    'nodes: for _ in crew.rt.forever() {
        let Some(node) = next_task(crew.rt, &mut worker.seat, &mut overflow, crew.steer)? else {
            return Ok(());
        };
        crew.gate.pass(number, round);
        round = round.saturating_add(1);
        let kids = grow::<T, S, R, G>(crew, node, &mut worker.pass, &mut room)?;
        crew.steer.expect(kids.len() as u64);
        put_all(&mut worker.seat, kids, &mut overflow)?;
        crew.steer.posted();
    }
    unreachable!()
}

/// Grows the node and posts its label. Answers its kids.
pub(crate) fn grow<T: Task<Ground = Job>, S: Grow<Node = T>, R: Wait, G: Gate>(
    crew: &Crew<S, R, G>,
    node: T,
    pass: &mut Pass<Board>,
    room: &mut S::Room,
) -> Result<Vec<T>, NoMemory>
    requires tasks { AreTasks (S.label_of crew.now.search.now) T.label_of (S.IsOwn crew.now.search.now)
        T.ground_of crew.now.job.now }
    requires board { IsBoardOf (S.row_of crew.now.search.now) crew.now.board.now }
    requires pass { IsPassOf crew.now.board.now pass.old }
    requires own { T.ground_of node ≡ crew.now.job.now }
    requires room { S.IsRoomy crew.now.search.now room.old }
    ensures room { OnOk result (S.IsRoomy crew.now.search.now room.new) }
    ensures pass { IsPassOf crew.now.board.now pass.new × (number pass.new ≡ number pass.old) }
    ensures posted { OnOk result (made pass.new ≡ made pass.old ++ T.label_of node ∷ []) }
    ensures kids { IfOk result (λ kids.
        map T.label_of kids.items ≡ S.kids_of crew.now.search.now (T.label_of node)) }
    ensures own { IfOk result (λ kids. AreTasksOf T.ground_of crew.now.job.now kids.items) }
{
    let Grown { label, row, kids } = crew.search.grow(crew.alloc, node, room)?;
    let mut post = Post::new(label, row);
    crew.board.change(crew.rt, pass, &mut post)?;
    Ok(kids)
}
