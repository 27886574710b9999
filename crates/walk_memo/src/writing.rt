//! The actions of a set of states at a move.

ghost use Rattle.std.specs.Prelude.{◌≡◌, ℕ, ◌*◌, ◌≤◌, ◌++◌, List, OnOk};
ghost use Rattle.walk_memo.specs.declared.action.Action.{Action as Acts};
ghost use Rattle.walk_memo.specs.Moves.{move_sets};
ghost use Rattle.walk_memo.specs.Steps.{AreWritten};

use super::action::Action;
use super::movement::Move;
use mine_model::NoMemory;
use state_bits::StateSet;

/// Appends the actions of a place that does this, where edges lead into these states.
pub(crate) fn push_actions<const W: usize>(
    actions: &mut Vec<Action>,
    targets: &StateSet<W>,
    movement: &Move<W>,
) -> Result<(), NoMemory>
    requires width { W ≤ 17 }
    ensures grows { (more : List Acts) × (actions.new.items ≡ actions.old.items ++ more) }
    ensures written { OnOk result ((more : List Acts) × (actions.new.items ≡ actions.old.items ++ more)
        × AreWritten targets.now (move_sets movement.now) more) }
{
    let mut writers = *targets;
    writers.intersect_with(&movement.writes);
    for state in writers.iter() {
        let more = movement.more.has(state);
        let unseen = movement.unseen.has(state);
        let ends = movement.ends.has(state);
        actions.push(Action {
            state: state as u16,
            more,
            unseen,
            ends,
        })?;
    }
    Ok(())
}
