//! The states that were made, by node.

ghost use Rattle.std.specs.Prelude.{◌≡◌, ◌<◌, ◌⊎◌, Bool, Some, length, replicate, OnOk};
ghost use Rattle.candidate_states.specs.Kept.{state_by, state_in, nothing, IsEntered};

use mine_model::NoMemory;

/// The numbers of the states of a node, where they were made: that for prefixes that cannot end there, and
/// that for those that can.
#[derive(Clone, Copy, Debug)]
pub(crate) struct Made {
    pub(crate) going: Option<u32>,
    pub(crate) ending: Option<u32>,
}

pub(crate) const NOTHING: Made = Made {
    going: None,
    ending: None,
};

/// No states for so many nodes, in place of those before.
pub(crate) fn begin(made: &mut Vec<Made>, count: usize) -> Result<(), NoMemory>
    ensures { OnOk result (made.new.items ≡ replicate count nothing) }
{
    made.clear();
    'nodes: for _node in 0..count {
        made.push(NOTHING)?;
    }
    Ok(())
}

/// The number of the state of the node, if it was made.
#[inline]
pub(crate) fn state_of(made: &[Made], node: u32, ends: bool) -> Option<u32>
    requires { node < length made.now }
    ensures { result ≡ state_in made.now node ends }
{
    let states = made[node as usize];
    if ends { states.ending } else { states.going }
}

/// Enters the number of the state of the node.
pub(crate) fn enter(made: &mut Vec<Made>, node: u32, ends: bool, state: u32)
    requires { node < length made.old.items }
    ensures { IsEntered made.old.items made.new.items node ends state }
{
    made[node as usize] = with_state(made[node as usize], ends, state);
}

/// The numbers with this one.
fn with_state(states: Made, ends: bool, state: u32) -> Made
    ensures here { state_by result ends ≡ Some state }
    ensures others { (flag : Bool) → (flag ≡ ends) ⊎ (state_by result flag ≡ state_by states flag) }
{
    if ends {
        Made {
            going: states.going,
            ending: Some(state),
        }
    } else {
        Made {
            going: Some(state),
            ending: states.ending,
        }
    }
}
