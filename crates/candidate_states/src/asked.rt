//! Which nodes are asked for, by the stages of the prefixes that lead to them.

ghost use Rattle.std.specs.Prelude.{◌≡◌, ◌<◌, ◌⊎◌, true, length, replicate, OnOk};
ghost use Rattle.candidate_states.specs.declared.stages.Stage.{Stage as At};
ghost use Rattle.candidate_states.specs.Stages.{asked_by, asked_in, unasked, IsAsked};

use super::stages::Stage;
use mine_model::NoMemory;

/// The stages at which a node is asked for.
#[derive(Clone, Copy, Debug)]
pub(crate) struct Asked {
    pub(crate) before: bool,
    pub(crate) going: bool,
    pub(crate) ending: bool,
}

pub(crate) const UNASKED: Asked = Asked {
    before: false,
    going: false,
    ending: false,
};

/// So many nodes, none of which is asked for, in place of those before.
pub(crate) fn begin_asked(asked: &mut Vec<Asked>, count: usize) -> Result<(), NoMemory>
    ensures { OnOk result (asked.new.items ≡ replicate count unasked) }
{
    asked.clear();
    'nodes: for _node in 0..count {
        asked.push(UNASKED)?;
    }
    Ok(())
}

/// Whether the node is asked for at the stage.
#[inline]
pub(crate) fn is_asked(asked: &[Asked], node: u32, stage: Stage) -> bool
    requires { node < length asked.now }
    ensures { result ≡ asked_in asked.now node stage }
{
    let stages = asked[node as usize];
    match stage {
        Stage::Before => stages.before,
        Stage::Going => stages.going,
        Stage::Ending => stages.ending,
    }
}

/// Asks for the node at the stage.
// Mostly it is asked for already, and a read is cheaper than a write.
#[inline]
pub(crate) fn ask(asked: &mut Vec<Asked>, node: u32, stage: Stage)
    requires { node < length asked.old.items }
    ensures { IsAsked asked.old.items asked.new.items node stage }
{
    if !is_asked(asked.as_slice(), node, stage) {
        asked[node as usize] = with_stage(asked[node as usize], stage);
    }
}

/// The stages with this one.
#[inline]
fn with_stage(stages: Asked, stage: Stage) -> Asked
    ensures here { asked_by result stage ≡ true }
    ensures others { (other : At) → (other ≡ stage) ⊎ (asked_by result other ≡ asked_by stages other) }
{
    match stage {
        Stage::Before => Asked {
            before: true,
            going: stages.going,
            ending: stages.ending,
        },
        Stage::Going => Asked {
            before: stages.before,
            going: true,
            ending: stages.ending,
        },
        Stage::Ending => Asked {
            before: stages.before,
            going: stages.going,
            ending: true,
        },
    }
}
