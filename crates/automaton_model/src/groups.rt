//! Sequences with equal candidates, counted together.

ghost use Rattle.std.specs.Prelude.{◌≡◌, ◌≢◌, ◌<◌, ◌^◌, AllPairs, IfOk, OnOk};
ghost use Rattle.std.specs.Ordering.{nat_cmp};
ghost use Rattle.std.specs.Cmp.Lexicographic.{slice_cmp};
ghost use Rattle.automaton_model.specs.Merges.{AreMerged, IsJoined, ComesNotBefore};

use super::automaton::Automaton;
use mine_model::NoMemory;
use std::alloc::Global;
use std::cmp::Ordering;

/// Sequences with equal candidates: the automaton of these, and what the sequences weigh together.
#[derive(Debug, Drop)]
pub struct Group {
    pub automaton: Automaton,
    pub count: u64,
}

/// The groups of sequences, or of groups of sequences: those with equal automata are one, whose count is the
/// sum of theirs, and 2^64 - 1 where that is more. They stand by rising codes: number by number, a proper
/// prefix first.
pub fn groups_of(alloc: Global, parts: Vec<Group>) -> Result<Vec<Group>, NoMemory>
    ensures { IfOk result (λ groups. AreMerged parts.items groups.items) }
{
    let mut parts = parts;
    parts.sort_unstable_by(|first, second| compare_codes(first, second));
    joined(alloc, parts)
}

fn compare_codes(first: &Group, second: &Group) -> Ordering
    ensures { result ≡ slice_cmp nat_cmp first.now.automaton second.now.automaton }
{
    first.automaton.code().cmp(second.automaton.code())
}

// The groups of parts that stand by their codes.
fn joined(alloc: Global, parts: Vec<Group>) -> Result<Vec<Group>, NoMemory>
    requires { AllPairs ComesNotBefore parts.items }
    ensures { IfOk result (λ groups. AreMerged parts.items groups.items) }
{
    let mut groups = Vec::new(alloc);
    'parts: for part in parts {
        join(&mut groups, part)?;
    }
    Ok(groups)
}

// Adds the count of the part to the last group, where that has its automaton; else it is a group of its own.
fn join(groups: &mut Vec<Group>, part: Group) -> Result<(), NoMemory>
    ensures joined { OnOk result (IsJoined groups.old.items part groups.new.items) }
    ensures fits { part.count < 2 ^ 64 }
{
    if let Some(last) = groups.pop() {
        if last.automaton.code() == part.automaton.code() {
            groups.push(Group {
                automaton: last.automaton,
                count: last.count.saturating_add(part.count),
            })?;
            return Ok(());
        }
        groups.push(last)?;
    }
    groups.push(part)?;
    Ok(())
}
