//! One event.
ghost use Rattle.std.specs.Prelude.{◌≡◌, ◌↔◌, ℕ, false, List, IfOk, OnOk, IsTrue};
ghost use Rattle.pool_schedule.specs.State.{IsBalanced};
ghost use Rattle.pool_schedule.specs.Steps.{Step, IsEnabled};
ghost use Rattle.pool_schedule.specs.Machine.{seen, IsOwned, HasRows, MayStep, PostsNode, StealsNode};
ghost use Rattle.pool_schedule.specs.declared.event.Event.TheVariants.{Post, Steal};

use crate::event::Event;
use crate::machine::Machine;
use crate::worker::Pending;
use mine_model::NoMemory;
use search_tree::Grow;
use std::alloc::Global;

/// Posts what the worker has pending.
fn post<N: Drop>(machine: &mut Machine<N>, w: u32) -> Result<(), NoMemory>
    requires { MayStep (Post w) machine.old.workers.items }
    ensures { OnOk result (PostsNode w machine.old machine.new) }
{
    if let Some(pending) = machine.workers[w as usize].pending.take() {
        let Pending { label, row } = pending;
        machine.posted.labels.push(label.numbers())?;
        if let Some(row) = row {
            machine.posted.rows.push(row)?;
        }
    }
    Ok(())
}

/// Moves the first node of the deque of `from` into the stack of `w`.
fn steal<N: Drop>(machine: &mut Machine<N>, w: u32, from: u32) -> Result<(), NoMemory>
    requires { MayStep (Steal w from) machine.old.workers.items }
    ensures { OnOk result (StealsNode w from machine.old machine.new) }
{
    if let Some(node) = machine.workers[from as usize].deque.pop_front() {
        machine.workers[w as usize].stack.push_back(node)?;
    }
    Ok(())
}

/// Does an event that is enabled.
fn perform<G: Grow>(
    alloc: Global,
    machine: &mut Machine<G::Node>,
    g: &G,
    event: Event,
    room: &mut G::Room,
) -> Result<(), NoMemory>
    requires room { G.IsRoomy g.now room.old }
    requires enabled { MayStep event machine.old.workers.items }
    requires own { IsOwned (G.IsOwn g.now) machine.old }
    ensures room { OnOk result (G.IsRoomy g.now room.new) }
    ensures done { OnOk result
        (Step (G.kids_of g.now) event
        (seen (G.label_of g.now) machine.old) (seen (G.label_of g.now) machine.new)) }
    ensures own { OnOk result (IsOwned (G.IsOwn g.now) machine.new) }
    ensures rows { OnOk result
        (HasRows (G.row_of g.now) machine.old → HasRows (G.row_of g.now) machine.new) }
{
    match event {
        Event::Post { w } => post(machine, w),
        Event::Grow { w } => machine.workers[w as usize].grow(alloc, g, room),
        Event::Put { w } => machine.workers[w as usize].put(),
        Event::Take { w } => machine.workers[w as usize].take(),
        Event::Steal { w, from } => steal(machine, w, from),
    }
}

/// Does the event where it is enabled, and says whether it was. After `NoMemory` the machine is spent:
/// nothing is claimed of it.
pub fn step<G: Grow>(
    alloc: Global,
    machine: &mut Machine<G::Node>,
    g: &G,
    event: Event,
    room: &mut G::Room,
) -> Result<bool, NoMemory>
    requires own { IsOwned (G.IsOwn g.now) machine.old }
    requires room { G.IsRoomy g.now room.old }
    ensures room { OnOk result (G.IsRoomy g.now room.new) }
    ensures enabled { IfOk result (λ done.
        IsTrue done ↔ IsEnabled (G.kids_of g.now) event (seen (G.label_of g.now) machine.old)) }
    ensures done { IfOk result (λ done. IsTrue done →
        Step (G.kids_of g.now) event
        (seen (G.label_of g.now) machine.old) (seen (G.label_of g.now) machine.new)) }
    ensures unchanged { IfOk result (λ done. done ≡ false → machine.new ≡ machine.old) }
    ensures own { OnOk result (IsOwned (G.IsOwn g.now) machine.new) }
    ensures rows { OnOk result
        (HasRows (G.row_of g.now) machine.old → HasRows (G.row_of g.now) machine.new) }
    ensures balance { OnOk result ((roots : List (List ℕ)) →
        IsBalanced roots (G.kids_of g.now) (seen (G.label_of g.now) machine.old) →
        IsBalanced roots (G.kids_of g.now) (seen (G.label_of g.now) machine.new)) }
{
    if !machine.enables(event) {
        return Ok(false);
    }
    perform(alloc, machine, g, event, room)?;
    Ok(true)
}
