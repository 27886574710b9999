//! How a pool is opened.
ghost use Rattle.std.specs.Prelude.{◌≡◌, ◌-◌, ◌+◌, ◌<◌, ◌≤◌, ℕ, [], None, Option, Some, IfOk, OnOk, All};
ghost use Rattle.std.specs.Prelude.{length, map, slice_get, vec_len};
ghost use Rattle.crossbeam_deque.specs.Handles.{IsPassOf, stealer_deque, view, worker_deque, worker_view};
ghost use Rattle.node_pool.specs.Rule.{fresh_account, without_parts};
ghost use Rattle.node_pool.specs.Deques.{pool_by};
ghost use Rattle.node_pool.specs.Ways.{share};
ghost use Rattle.node_pool.specs.Opening.{kept, AreFresh, AreNewWays, AreRows, AreSeats};
ghost use Rattle.node_pool.specs.Pool.{number_of, pool_of, seat_ground, IsFresh, IsSeatAt, IsWholePool};

use crate::rule::{Founds, Grounded, Lends, Owner, Right, Spares};
use crate::seat::Seat;
use crate::task::Task;
use crate::way::Way;
use mine_model::NoMemory;
use std::alloc::Global;
use std::marker::Brand;

/// The slots of a new deque, which doubles as it fills.
const FIRST_SLOTS: usize = 64;

/// Fixes the ground of a new deque.
fn found<T: Task, K: Grounded<T::Ground>>(owner: &mut Owner<T>, _ground: &T::Ground)
    requires { worker_view owner.old ≡ fresh_account 64 None }
    ensures same { worker_deque owner.new ≡ worker_deque owner.old }
    ensures founded { worker_view owner.new ≡ fresh_account 64 K.known_ground }
{
    drop(owner.another::<Founds<K>>());
}

/// An empty deque for tasks of this ground.
fn deque<T: Task>(alloc: Global, ground: &T::Ground) -> Result<Owner<T>, NoMemory>
    ensures { IfOk result (λ owner. worker_view owner ≡ fresh_account 64 (Some ground.now)) }
{
    let mut owner = Owner::<T>::lifo_as(alloc, FIRST_SLOTS)?;
    found::<T, Brand>(&mut owner, ground);
    Ok(owner)
}

/// The deques of a pool.
fn deques<T: Task>(
    alloc: Global,
    workers: usize,
    ground: &T::Ground,
) -> Result<Vec<Owner<T>>, NoMemory>
    ensures count { IfOk result (λ owners. vec_len owners ≡ workers) }
    ensures fresh { IfOk result (λ owners. AreFresh (Some ground.now) 0 owners.items) }
{
    let mut owners = Vec::new(alloc);
    'deques: while owners.len() < workers {
        owners.push(deque::<T>(alloc, ground)?)?;
    }
    Ok(owners)
}

/// The right of the seat `number` in deque `k`.
fn right<T: Task>(owner: &mut Owner<T>, number: usize, k: usize) -> Right<T>
    requires { share number k < (worker_view owner.old).parts }
    ensures same { (worker_deque owner.new ≡ worker_deque owner.old)
        × IsPassOf (worker_deque owner.old) result }
    ensures left { worker_view owner.new ≡ without_parts (worker_view owner.old) (share number k) }
    ensures right { view result ≡ fresh_account (share number k) (worker_view owner.old).known_ground }
{
    if k == number {
        owner.another::<Spares>()
    } else {
        owner.another::<Lends>()
    }
}

/// The way of the seat `number` into deque `k`.
fn way<T: Task>(owner: &mut Owner<T>, number: usize, k: usize) -> Result<Way<T>, NoMemory>
    requires { share number k < (worker_view owner.old).parts }
    ensures same { worker_deque owner.new ≡ worker_deque owner.old }
    ensures left { OnOk result
        (worker_view owner.new ≡ without_parts (worker_view owner.old) (share number k)) }
    ensures there { IfOk result (λ way. stealer_deque way.thief ≡ worker_deque owner.old) }
    ensures right { IfOk result
        (λ way. view way.right ≡ fresh_account (share number k) (worker_view owner.old).known_ground) }
{
    let thief = owner.stealer()?;
    let right = right::<T>(owner, number, k);
    Ok(Way { thief, right })
}

/// The ways of the seat `number` into all deques.
fn ways<T: Task>(
    alloc: Global,
    owners: &mut Vec<Owner<T>>,
    number: usize,
) -> Result<Vec<Way<T>>, NoMemory>
    ghost known_ground: { Option T.Ground }
    requires fresh { AreFresh known_ground number owners.old.items }
    requires few { (number < vec_len owners.old) × (vec_len owners.old ≤ 64) }
    ensures same { OnOk result
        (map worker_deque owners.new.items ≡ map worker_deque owners.old.items) }
    ensures left { OnOk result (AreFresh known_ground (number + 1) owners.new.items) }
    ensures pool { IfOk result (λ ways. pool_by ways.items ≡ map worker_deque owners.old.items) }
    ensures ways { IfOk result (λ ways. AreNewWays known_ground number ways.items) }
{
    let mut ways = Vec::new(alloc);
    'ways: for k in 0..owners.len() {
        ways.push(way::<T>(&mut owners[k], number, k)?)?;
    }
    Ok(ways)
}

/// The ways of all seats, in the order of their numbers.
fn all_ways<T: Task>(
    alloc: Global,
    owners: &mut Vec<Owner<T>>,
) -> Result<Vec<Vec<Way<T>>>, NoMemory>
    ghost known_ground: { Option T.Ground }
    requires fresh { AreFresh known_ground 0 owners.old.items }
    requires few { vec_len owners.old ≤ 64 }
    ensures same { OnOk result
        (map worker_deque owners.new.items ≡ map worker_deque owners.old.items) }
    ensures left { OnOk result (AreFresh known_ground (vec_len owners.old) owners.new.items) }
    ensures rows { IfOk result (λ rows.
        AreRows known_ground (map worker_deque owners.old.items) (vec_len owners.old) rows.items) }
{
    let mut rows = Vec::new(alloc);
    'rows: for number in 0..owners.len() {
        rows.push(ways::<T>(alloc, owners, number)?)?;
    }
    Ok(rows)
}

/// A seat that has put and taken nothing.
fn seat<T: Task>(owner: Owner<T>, ways: Vec<Way<T>>, number: u32) -> Seat<T>
    requires own { slice_get (pool_by ways.items) number ≡ Some (worker_deque owner) }
    requires few { length ways.items ≤ 64 }
    requires owner { worker_view owner
        ≡ fresh_account (65 - length ways.items) (worker_view owner).known_ground }
    requires ways { AreNewWays (worker_view owner).known_ground number ways.items }
    ensures place { IsSeatAt (worker_view owner).known_ground (pool_by ways.items) number result }
    ensures fresh { IsFresh result }
{
    Seat {
        owner,
        ways,
        number,
        dry: 0,
    }
}

/// The seats, put together from the last to the first.
fn seated<T: Task>(
    alloc: Global,
    mut owners: Vec<Owner<T>>,
    mut rows: Vec<Vec<Way<T>>>,
) -> Result<Vec<Seat<T>>, NoMemory>
    ghost known_ground: { Option T.Ground }
    requires fresh { AreFresh known_ground (vec_len owners) owners.items }
    requires few { vec_len owners ≤ 64 }
    requires rows { AreRows known_ground (map worker_deque owners.items) (vec_len owners) rows.items }
    ensures count { IfOk result (λ seats. vec_len seats ≡ vec_len owners) }
    ensures seats { IfOk result (λ seats.
        AreSeats known_ground (map worker_deque owners.items) seats.items) }
{
    let mut seats = Vec::new(alloc);
    'seats: while let Some(owner) = owners.pop() {
        let Some(ways) = rows.pop() else {
            unreachable!()
        };
        let seat = seat::<T>(owner, ways, owners.len() as u32);
        seats.push(seat)?;
    }
    seats.reverse();
    Ok(seats)
}

/// Opens a pool for tasks of this ground, with a seat for each worker. All deques are empty.
pub fn open<T: Task>(
    alloc: Global,
    workers: u32,
    ground: &T::Ground,
) -> Result<Vec<Seat<T>>, NoMemory>
    requires { (1 ≤ workers) × (workers ≤ 64) }
    ensures count { IfOk result (λ seats. vec_len seats ≡ workers) }
    ensures pool { IfOk result (λ seats. IsWholePool seats.items) }
    ensures fresh { IfOk result (λ seats. All IsFresh seats.items) }
    ensures ground { IfOk result (λ seats. All (λ seat. seat_ground seat ≡ Some ground.now) seats.items) }
{
    let mut owners = deques::<T>(alloc, workers as usize, ground)?;
    let rows = all_ways::<T>(alloc, &mut owners)?;
    seated::<T>(alloc, owners, rows)
}
