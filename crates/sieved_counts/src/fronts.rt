//! The fronts of a walk: where the paths of prefixes of one length lead.

ghost use Rattle.std.specs.Prelude.{◌≡◌, ℕ, ◌+◌, ◌^◌, ◌<◌, [], ◌∷◌, ◌++◌, List, Some, length, slice_get, OnOk};
ghost use Rattle.candidate_graph.specs.Graphs.{Grows};
ghost use Rattle.prefix_counts.specs.Sums.{sum_of};
ghost use Rattle.sieved_counts.specs.Counted.{HasCounted};
ghost use Rattle.sieved_counts.specs.Fronts.{root_front, IsFrontOf, AreFrontsAt, HasGoneBehind, HasGoneOn};

use super::edges::count_edges;
use mine_model::NoMemory;
use prefix_counts::PrefixCounts;
use prefix_sieve::{Branches, Sieve};
use std::mem;

/// The node to which the path of a prefix leads, the number under which the prefix is counted, and its hash.
#[derive(Clone, Copy, Debug)]
pub(crate) struct Front {
    pub(crate) node: u32,
    pub(crate) number: u32,
    pub(crate) hash: u64,
}

/// Goes on through all levels, from the empty prefix to those of the greatest length, or until none passes.
pub(crate) fn go_down<B: Branches>(
    branches: &mut B,
    sieve: &Sieve,
    weight: u64,
    longest: usize,
    here: &mut Vec<Front>,
    next: &mut Vec<Front>,
    counts: &mut PrefixCounts,
) -> Result<(), NoMemory>
    requires begun { B.IsBegun branches.old }
    requires root { 0 < length (B.nodes branches.old) }
    requires here { here.old.items ≡ root_front ∷ [] }
    requires room { (list : List ℕ) → sum_of counts.old list + weight < 2 ^ 64 }
    ensures begun { B.IsBegun branches.new }
    ensures ground { B.ground_of branches.new ≡ B.ground_of branches.old }
    ensures grows { Grows (B.nodes branches.old) (B.nodes branches.new) }
    ensures counted { OnOk result (HasCounted sieve.now weight longest (B.nodes branches.new) counts.old
        counts.new) }
{
    // The empty list is the first.
    let _held = counts.len();
    for before in 0..longest {
        if here.is_empty() {
            return Ok(());
        }
        go_on(
            branches,
            sieve,
            weight,
            before,
            here.as_slice(),
            next,
            counts,
        )?;
        mem::swap(here, next);
    }
    Ok(())
}

// Goes on from the prefixes of one length to those that pass of the next, in place of those before.
fn go_on<B: Branches>(
    branches: &mut B,
    sieve: &Sieve,
    weight: u64,
    before: usize,
    here: &[Front],
    next: &mut Vec<Front>,
    counts: &mut PrefixCounts,
) -> Result<(), NoMemory>
    requires begun { B.IsBegun branches.old }
    requires fronts { AreFrontsAt sieve.now (B.nodes branches.old) before counts.old.lists here.now }
    requires room { (list : List ℕ) → length list ≡ before + 1 → sum_of counts.old list + weight < 2 ^ 64 }
    ensures begun { B.IsBegun branches.new }
    ensures ground { B.ground_of branches.new ≡ B.ground_of branches.old }
    ensures grows { Grows (B.nodes branches.old) (B.nodes branches.new) }
    ensures gone { OnOk result (HasGoneOn (slice_get sieve.now before) weight (B.nodes branches.new) here.now
        counts.old counts.new next.new.items) }
{
    next.clear();
    // Each list has one number.
    let _held = counts.len();
    for front in here {
        go_behind(branches, sieve, weight, before, *front, next, counts)?;
    }
    Ok(())
}

// Goes on from one of them.
fn go_behind<B: Branches>(
    branches: &mut B,
    sieve: &Sieve,
    weight: u64,
    before: usize,
    front: Front,
    next: &mut Vec<Front>,
    counts: &mut PrefixCounts,
) -> Result<(), NoMemory>
    requires begun { B.IsBegun branches.old }
    requires node { front.node < length (B.nodes branches.old) }
    requires front { (list : List ℕ) × IsFrontOf counts.old.lists list front }
    requires room { (list : List ℕ) (rank : ℕ) → slice_get counts.old.lists front.number ≡ Some list
        → sum_of counts.old (list ++ rank ∷ []) + weight < 2 ^ 64 }
    ensures begun { B.IsBegun branches.new }
    ensures ground { B.ground_of branches.new ≡ B.ground_of branches.old }
    ensures grows { Grows (B.nodes branches.old) (B.nodes branches.new) }
    ensures gone { OnOk result ((list : List ℕ) → IsFrontOf counts.old.lists list front
        → HasGoneBehind (slice_get sieve.now before) weight (B.nodes branches.new) front list counts.old
        counts.new next.old.items next.new.items) }
{
    branches.expand(front.node)?;
    let edges = branches.edges_of(front.node);
    count_edges(edges, front, sieve, weight, before, next, counts)?;
    Ok(())
}
