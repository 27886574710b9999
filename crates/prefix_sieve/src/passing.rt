ghost use Rattle.std.specs.Prelude.{◌≡◌, ℕ, ◌<◌, length, OnOk};
ghost use Rattle.candidate_graph.specs.Graphs.{Grows};
ghost use Rattle.prefix_sieve.specs.Fronts.{IsPassed};

use super::branches::Branches;
use super::buckets::Buckets;
use super::fronts::{Front, go_down};
use super::hashes::START;
use super::raising::raise_all;
use super::sieve::Sieve;
use mine_model::NoMemory;
use std::alloc::Global;

/// A worker's room for passes, used again for each sequence.
#[derive(Drop)]
pub struct Room {
    here: Vec<Front>,
    next: Vec<Front>,
}

impl Room {
    /// No room yet.
    pub fn new(alloc: Global) -> Room {
        Room {
            here: Vec::new(alloc),
            next: Vec::new(alloc),
        }
    }
}

/// The pass over one sequence for the next level of the sieve: adds the weight to the bucket of each prefix
/// that has one rank more than there are levels, behind prefixes that passed. The prefixes of one length are
/// gone through together, so nothing is taken from the stack of the thread. Where memory is wanting, some may
/// have been added.
pub fn pass<B: Branches>(
    branches: &mut B,
    sieve: &Sieve,
    weight: u64,
    room: &mut Room,
    buckets: &mut Buckets,
) -> Result<(), NoMemory>
    requires begun { B.IsBegun branches.old }
    requires root { 0 < length (B.nodes branches.old) }
    ensures ground { B.ground_of branches.new ≡ B.ground_of branches.old }
    ensures begun { B.IsBegun branches.new }
    ensures grows { Grows (B.nodes branches.old) (B.nodes branches.new) }
    ensures long { length buckets.new ≡ length buckets.old }
    ensures passed { OnOk result (IsPassed sieve.now weight (B.nodes branches.new) buckets.old
        buckets.new) }
{
    room.here.clear();
    room.here.push(Front {
        node: 0,
        hash: START,
    })?;
    go_down(branches, sieve, &mut room.here, &mut room.next)?;
    raise_all(branches, room.here.as_slice(), weight, buckets)?;
    Ok(())
}
