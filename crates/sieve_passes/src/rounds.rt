//! How often a worker passes the gate.

use mine_model::Gate;

/// How many sequences a round of a worker has; its last one may have fewer.
const ROUND: usize = 256;

/// Passes the gate where a round begins with the sequence with this index, among so many. The rounds go on
/// from one time that the worker goes over its sequences to the next: `times` counts those before, and this.
pub fn pass_gate<G: Gate>(gate: &G, worker: u32, times: usize, count: usize, index: usize) {
    if index % ROUND == 0 {
        let before = times
            .saturating_sub(1)
            .saturating_mul(count.div_ceil(ROUND));
        gate.pass(worker, before.saturating_add(index / ROUND) as u64);
    }
}
