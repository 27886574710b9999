//! Where rows of states lead from the members of a set.

ghost use Rattle.std.specs.Prelude.{◌≤◌, ◌<◌, ℕ, length};
ghost use Rattle.state_bits.specs.Members.{Has};
ghost use Rattle.state_bits.specs.Neighbours.{AreNeighbours};

use super::state_set::StateSet;

/// The states that stand in the rows of these: with the successors of each state those to which edges lead
/// from one of them.
pub fn neighbours<const W: usize>(rows: &[StateSet<W>], states: &StateSet<W>) -> StateSet<W>
    requires width { W ≤ 17 }
    requires within { (from : ℕ) → Has states.now from → from < length rows.now }
    ensures { AreNeighbours rows.now states.now result }
{
    let mut found = StateSet::new();
    for state in states.iter() {
        found.union_with(&rows[state as usize]);
    }
    found
}
