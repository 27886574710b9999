//! The least over the edges of a transducer.

ghost use Rattle.std.specs.Prelude.{◌≡◌, ℕ, ◌+◌, ◌≤◌, ◌<◌, ◌⊎◌, ◌↔◌, length, slice_index, All, Contains};
ghost use Rattle.fst_compile.specs.declared.edge.Edge.{Edge as Arc};
ghost use Rattle.fst_compile.specs.Transducer.{Leads};
ghost use Rattle.pivot_partition.specs.Tops.{no_rank};

use super::reading::NONE;
use fst_compile::{Edge, Fst, State};

/// The least number of the states that the edges lead to.
pub(crate) fn least_behind(edges: &[Edge], entered: &[u32]) -> u32
    requires { All (λ edge. edge.to.0 < length entered.now) edges.now }
    ensures { (p : ℕ) → p < no_rank → (result ≤ p
        ↔ ((edge : Arc) × Contains edges.now edge × (slice_index entered.now edge.to.0 ≤ p))) }
{
    let mut least = NONE;
    for edge in edges {
        least = least.min(entered[edge.to.0 as usize]);
    }
    least
}

/// Gives each state the least number of those that lead to it.
pub(crate) fn spread(fst: &Fst, front: &[u32], entered: &mut [u32])
    requires front { length front.now ≡ length fst.now.labels + 1 }
    requires entered { length entered.old ≡ length fst.now.labels + 1 }
    ensures long { length entered.new ≡ length entered.old }
    ensures least { (state p : ℕ) → state ≤ length fst.now.labels → p < no_rank
        → (slice_index entered.new state ≤ p ↔ ((from : ℕ) × (from ≤ length fst.now.labels)
        × (slice_index front.now from ≤ p) × Leads fst.now from state)) }
{
    clear(entered);
    for state in 0..fst.states() {
        let top = front[state as usize];
        if top != NONE {
            lower(fst.edges(State(state)), top, entered);
        }
    }
}

/// Leaves nothing.
fn clear(row: &mut [u32])
    ensures long { length row.new ≡ length row.old }
    ensures none { (k : ℕ) → k < length row.old → slice_index row.new k ≡ no_rank }
{
    for top in row.iter_mut() {
        *top = NONE;
    }
}

/// Gives the states that the edges lead to this number, where theirs is greater.
fn lower(edges: &[Edge], top: u32, entered: &mut [u32])
    requires { All (λ edge. edge.to.0 < length entered.old) edges.now }
    ensures long { length entered.new ≡ length entered.old }
    ensures least { (state p : ℕ) → (slice_index entered.new state ≤ p
        ↔ ((slice_index entered.old state ≤ p) ⊎ ((top ≤ p)
        × ((edge : Arc) × Contains edges.now edge × (edge.to.0 ≡ state))))) }
{
    for edge in edges {
        let to = edge.to.0 as usize;
        entered[to] = entered[to].min(top);
    }
}
