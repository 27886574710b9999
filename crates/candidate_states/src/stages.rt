//! What is known of a prefix where the candidates are those with one pivot.

ghost use Rattle.std.specs.Prelude.{◌≡◌};
ghost use Rattle.candidate_states.specs.Stages.{stage_behind, stage_met, can_end};

use candidate_graph::Edge as Step;

/// Whether a prefix holds the pivot, and whether it can end where it does. Where it does not it cannot.
#[derive(Clone, Copy, Debug)]
pub(crate) enum Stage {
    Before,
    Going,
    Ending,
}

/// The stage of a prefix of this stage with the rank of an edge.
#[inline]
pub(crate) fn behind(pivot: u32, stage: Stage, step: Step) -> Stage
    ensures { result ≡ stage_behind pivot stage step }
{
    match stage {
        Stage::Before => {
            if step.rank == pivot {
                met(step.ends)
            } else {
                Stage::Before
            }
        }
        Stage::Going => met(step.ends),
        Stage::Ending => met(step.ends),
    }
}

/// The stage of a prefix that holds the pivot.
#[inline]
fn met(ends: bool) -> Stage
    ensures { result ≡ stage_met ends }
{
    if ends { Stage::Ending } else { Stage::Going }
}

/// Whether a prefix of the stage is a candidate.
#[inline]
pub(crate) fn is_ending(stage: Stage) -> bool
    ensures { result ≡ can_end stage }
{
    match stage {
        Stage::Before => false,
        Stage::Going => false,
        Stage::Ending => true,
    }
}
