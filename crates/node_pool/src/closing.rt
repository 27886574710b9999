//! How a pool is closed.
ghost use Rattle.std.specs.Prelude.{◌≡◌, ◌+◌, ◌++◌, ◌≤◌, ℕ, List, Option, Some, IfOk, OnOk, All, map};
ghost use Rattle.std.specs.Prelude.{length, slice_get, sum_by, vec_len};
ghost use Rattle.std.specs.List.{flat_map};
ghost use Rattle.mine_model.specs.Labels.{SameLabels};
ghost use Rattle.crossbeam_deque.specs.Handles.{worker_deque, worker_view};
ghost use Rattle.node_pool.specs.Closing.{given_weight, got_weight, stolen_weight, all_stolen_weight};
ghost use Rattle.node_pool.specs.Closing.{AllCanReturn, AllReturned, HaveParts, AreWays};
ghost use Rattle.node_pool.specs.Rule.{task_weight, HaveGround};
ghost use Rattle.node_pool.specs.Pool.{seat_ground, given, got, IsWholePool};

use crate::rule::{Owner, Returns, Takes};
use crate::seat::Seat;
use crate::task::Task;
use crate::way::Way;
use mine_model::NoMemory;
use std::alloc::Global;

/// Takes the seats apart, each into its own deque and its ways into all of them.
fn apart<T: Task>(
    alloc: Global,
    seats: Vec<Seat<T>>,
) -> Result<(Vec<Owner<T>>, Vec<Vec<Way<T>>>), NoMemory>
    ensures owners { IfOk result (λ parts. parts.0.items ≡ map (λ s. s.owner) seats.items) }
    ensures rows { IfOk result (λ parts. parts.1.items ≡ map (λ s. s.ways) seats.items) }
{
    let mut owners = Vec::new(alloc);
    let mut rows = Vec::new(alloc);
    'seats: for seat in seats {
        let Seat {
            owner,
            ways,
            number: _,
            dry: _,
        } = seat;
        owners.push(owner)?;
        rows.push(ways)?;
    }
    Ok((owners, rows))
}

/// Gives the passes of one seat back to the owners of the deques.
fn give_back<T: Task>(owners: &mut Vec<Owner<T>>, mut ways: Vec<Way<T>>)
    requires count { vec_len ways ≡ vec_len owners.old }
    requires rights { AllCanReturn owners.old.items ways.items }
    ensures count { vec_len owners.new ≡ vec_len owners.old }
    ensures returned { AllReturned owners.old.items ways.items owners.new.items }
{
    'ways: while let Some(way) = ways.pop() {
        let Way { thief, right } = way;
        drop(thief);
        owners[ways.len()].absorb::<Returns>(right);
    }
}

/// Gives the passes of all seats back.
fn gather<T: Task>(owners: &mut Vec<Owner<T>>, mut rows: Vec<Vec<Way<T>>>)
    ghost known_ground: { Option T.Ground }
    requires few { (vec_len rows ≡ vec_len owners.old) × (vec_len rows ≤ 64) }
    requires parts { HaveParts known_ground (vec_len rows) owners.old.items }
    requires ways { AreWays known_ground (map worker_deque owners.old.items) rows.items }
    ensures count { vec_len owners.new ≡ vec_len owners.old }
    ensures parts { HaveParts known_ground 0 owners.new.items }
    ensures given { (weight : List ℕ → ℕ)
        → given_weight weight owners.new.items ≡ given_weight weight owners.old.items }
    ensures got { (weight : List ℕ → ℕ) → got_weight weight owners.new.items
        ≡ got_weight weight owners.old.items + all_stolen_weight weight rows.items }
{
    'rows: while let Some(ways) = rows.pop() {
        give_back::<T>(owners, ways);
    }
}

/// Moves what a deque holds to the end of `left`.
fn empty<T: Task>(mut owner: Owner<T>, left: &mut Vec<T>) -> Result<(), NoMemory>
    requires { (worker_view owner).parts ≡ 64 }
    ensures balance { OnOk result ((weight : List ℕ → ℕ)
        → sum_by weight (worker_view owner).given + task_weight T.label_of weight left.old.items
        ≡ sum_by weight (worker_view owner).got + task_weight T.label_of weight left.new.items) }
    ensures ground { OnOk result (HaveGround T.ground_of (worker_view owner).known_ground left.old.items
        → HaveGround T.ground_of (worker_view owner).known_ground left.new.items) }
{
    'tasks: while let Some(task) = owner.pop_as::<Takes>() {
        left.push(task)?;
    }
    Ok(())
}

/// What all deques hold.
fn remains<T: Task>(alloc: Global, mut owners: Vec<Owner<T>>) -> Result<Vec<T>, NoMemory>
    ghost known_ground: { Option T.Ground }
    requires { HaveParts known_ground 0 owners.items }
    ensures balance { IfOk result (λ left. (weight : List ℕ → ℕ) → given_weight weight owners.items
        ≡ got_weight weight owners.items + task_weight T.label_of weight left.items) }
    ensures ground { IfOk result (λ left. HaveGround T.ground_of known_ground left.items) }
{
    let mut left = Vec::new(alloc);
    'owners: while let Some(owner) = owners.pop() {
        empty::<T>(owner, &mut left)?;
    }
    Ok(left)
}

/// Closes the pool, and gives what its deques still hold. After `NoMemory` those tasks are dropped.
pub fn finish<T: Task>(alloc: Global, seats: Vec<Seat<T>>) -> Result<Vec<T>, NoMemory>
    requires { IsWholePool seats.items }
    ensures balance { IfOk result (λ left. SameLabels (flat_map given seats.items)
        (flat_map got seats.items ++ map T.label_of left.items)) }
    ensures ground { IfOk result (λ left.
        All (λ task. All (λ seat. seat_ground seat ≡ Some (T.ground_of task)) seats.items) left.items) }
{
    let (mut owners, rows) = apart::<T>(alloc, seats)?;
    gather::<T>(&mut owners, rows);
    remains::<T>(alloc, owners)
}
