//! Where edges lead, as sets of states that have as many words as the states need.

ghost use Rattle.std.specs.Prelude.{◌≡◌, ℕ, ◌*◌, ◌≤◌, ◌<◌, ◌⊎◌, ◌↔◌, length, slice_index, IfOk};
ghost use Rattle.state_bits.specs.Members.{Has};
ghost use Rattle.fst_compile.specs.Transducer.{Leads};
ghost use Rattle.sequence_grids.specs.Successors.{AreSuccessors, AreSuccessorsOf};

use fst_compile::{Fst, State};
use mine_model::NoMemory;
use state_bits::StateSet;
use std::alloc::Global;

/// For each state those to which edges lead from it, in sets of the least width that has room for all states.
#[derive(Drop)]
pub enum Successors {
    One(Vec<StateSet<1>>),
    Four(Vec<StateSet<4>>),
    Wide(Vec<StateSet<17>>),
}

/// The successors of each state of the transducer.
pub fn successors_of(alloc: Global, fst: &Fst) -> Result<Successors, NoMemory>
    ensures { IfOk result (AreSuccessorsOf fst.now) }
{
    let states = fst.states();
    if states <= 64 {
        Ok(Successors::One(sets_of(alloc, fst)?))
    } else if states <= 256 {
        Ok(Successors::Four(sets_of(alloc, fst)?))
    } else {
        Ok(Successors::Wide(sets_of(alloc, fst)?))
    }
}

// The same as sets of one width.
fn sets_of<const W: usize>(alloc: Global, fst: &Fst) -> Result<Vec<StateSet<W>>, NoMemory>
    requires width { W ≤ 17 }
    requires room { length fst.now.labels < 64 * W }
    ensures { IfOk result (λ sets. AreSuccessors W fst.now sets.items) }
{
    let mut sets = Vec::new(alloc);
    for state in 0..fst.states() {
        let mut set = StateSet::new();
        add_targets(fst, state, &mut set);
        sets.push(set)?;
    }
    Ok(sets)
}

// Adds the states to which edges lead from this one.
fn add_targets<const W: usize>(fst: &Fst, state: u32, targets: &mut StateSet<W>)
    requires state { state ≤ length fst.now.labels }
    requires room { length fst.now.labels < 64 * W }
    ensures { (to : ℕ) → Has targets.new to ↔ (Has targets.old to ⊎ Leads fst.now state to) }
{
    for edge in fst.edges(State(state)) {
        targets.add(edge.to.0);
    }
}
