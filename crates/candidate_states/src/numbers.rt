//! The states that were made for nodes, by the stages of the prefixes that lead to them.

ghost use Rattle.std.specs.Prelude.{◌≡◌, ◌<◌, ◌⊎◌, Some, length, replicate, OnOk};
ghost use Rattle.candidate_states.specs.declared.stages.Stage.{Stage as At};
ghost use Rattle.candidate_states.specs.Stages.{number_by, number_in, unnumbered, IsNumbered};

use super::stages::Stage;
use mine_model::NoMemory;

/// The numbers of the states of a node, where some were made. None is made where nothing is accepted.
#[derive(Clone, Copy, Debug)]
pub(crate) struct Numbers {
    pub(crate) before: Option<u32>,
    pub(crate) going: Option<u32>,
    pub(crate) ending: Option<u32>,
}

pub(crate) const UNNUMBERED: Numbers = Numbers {
    before: None,
    going: None,
    ending: None,
};

/// No states for so many nodes, in place of those before.
pub(crate) fn begin_numbers(numbers: &mut Vec<Numbers>, count: usize) -> Result<(), NoMemory>
    ensures { OnOk result (numbers.new.items ≡ replicate count unnumbered) }
{
    numbers.clear();
    'nodes: for _node in 0..count {
        numbers.push(UNNUMBERED)?;
    }
    Ok(())
}

/// The number of the state of the node at the stage, if one was made.
#[inline]
pub(crate) fn number_of(numbers: &[Numbers], node: u32, stage: Stage) -> Option<u32>
    requires { node < length numbers.now }
    ensures { result ≡ number_in numbers.now node stage }
{
    let stages = numbers[node as usize];
    match stage {
        Stage::Before => stages.before,
        Stage::Going => stages.going,
        Stage::Ending => stages.ending,
    }
}

/// Enters the number of the state of the node at the stage.
pub(crate) fn enter_number(numbers: &mut Vec<Numbers>, node: u32, stage: Stage, number: u32)
    requires { node < length numbers.old.items }
    ensures { IsNumbered numbers.old.items numbers.new.items node stage number }
{
    numbers[node as usize] = with_number(numbers[node as usize], stage, number);
}

/// The numbers with this one.
fn with_number(stages: Numbers, stage: Stage, number: u32) -> Numbers
    ensures here { number_by result stage ≡ Some number }
    ensures others { (other : At) → (other ≡ stage) ⊎ (number_by result other ≡ number_by stages other) }
{
    match stage {
        Stage::Before => Numbers {
            before: Some(number),
            going: stages.going,
            ending: stages.ending,
        },
        Stage::Going => Numbers {
            before: stages.before,
            going: Some(number),
            ending: stages.ending,
        },
        Stage::Ending => Numbers {
            before: stages.before,
            going: stages.going,
            ending: Some(number),
        },
    }
}
