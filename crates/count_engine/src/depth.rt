//! How many levels the sieve is to have. No answer hangs on it.

ghost use Rattle.std.specs.Prelude.{◌≤◌, length};

use fst_compile::{Fst, State};
use mining_job::Job;

/// How many ranks a pattern may have so that two levels are enough: a third would go over whole patterns,
/// which costs as much as to count them at once.
const SHORT: u32 = 3;

/// How many levels.
pub(crate) fn depth_for(job: &Job) -> u32
    ensures { 1 ≤ result }
{
    if is_short(job.fst()) { 2 } else { 3 }
}

// Whether patterns have few ranks, as far as the states tell that write, each of which may be met once where
// no edge leads back over it.
fn is_short(fst: &Fst) -> bool {
    let mut writing: u32 = 0;
    let mut last: u32 = 0;
    for state in 1..fst.states() {
        if fst.is_captured(State(state)) {
            writing = writing.saturating_add(1);
            last = state;
        }
        if leads_back(fst, State(state), last) {
            return false;
        }
    }
    writing <= SHORT
}

// Whether an edge of the state leads back to this one or over it.
fn leads_back(fst: &Fst, state: State, to: u32) -> bool
    requires { state.0 ≤ length fst.now.labels }
{
    match fst.edges(state).first() {
        Some(edge) => edge.to.0 <= to,
        None => false,
    }
}
