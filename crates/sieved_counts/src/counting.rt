ghost use Rattle.std.specs.Prelude.{◌≡◌, ℕ, ◌+◌, ◌^◌, ◌<◌, List, length, OnOk};
ghost use Rattle.candidate_graph.specs.Graphs.{Grows};
ghost use Rattle.prefix_counts.specs.Sums.{sum_of};
ghost use Rattle.sieved_counts.specs.Counted.{HasCounted};

use super::fronts::{Front, go_down};
use mine_model::NoMemory;
use prefix_counts::PrefixCounts;
use prefix_sieve::{Branches, START, Sieve};
use std::alloc::Global;

/// A worker's room for walks, used again for each sequence.
#[derive(Drop)]
pub struct Room {
    here: Vec<Front>,
    next: Vec<Front>,
}

impl Room {
    /// No room yet.
    pub fn new(alloc: Global) -> Room {
        Room {
            here: Vec::new(alloc),
            next: Vec::new(alloc),
        }
    }
}

/// Adds the weight of a sequence to the sum of each of its candidates that passes with all its prefixes, once
/// each. What has at most `longest` ranks is looked at: no candidate has more than its sequence has items. A
/// prefix that passes and only leads on gets a number, with the sum 0. The prefixes of one length are gone
/// through together, so nothing is taken from the stack of the thread. Where memory is wanting, some may have
/// been counted.
pub fn count<B: Branches>(
    branches: &mut B,
    sieve: &Sieve,
    weight: u64,
    longest: usize,
    room: &mut Room,
    counts: &mut PrefixCounts,
) -> Result<(), NoMemory>
    requires begun { B.IsBegun branches.old }
    requires root { 0 < length (B.nodes branches.old) }
    requires room { (list : List ℕ) → sum_of counts.old list + weight < 2 ^ 64 }
    ensures begun { B.IsBegun branches.new }
    ensures ground { B.ground_of branches.new ≡ B.ground_of branches.old }
    ensures grows { Grows (B.nodes branches.old) (B.nodes branches.new) }
    ensures counted { OnOk result (HasCounted sieve.now weight longest (B.nodes branches.new) counts.old
        counts.new) }
{
    room.here.clear();
    room.here.push(Front {
        node: 0,
        number: 0,
        hash: START,
    })?;
    go_down(
        branches,
        sieve,
        weight,
        longest,
        &mut room.here,
        &mut room.next,
        counts,
    )
}
