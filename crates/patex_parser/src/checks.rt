ghost use Rattle.std.specs.Prelude.{◌≡◌, ◌<◌, ◌≤◌, min, OnOk, IfErr, IfSome, IfNone};
ghost use Rattle.std.specs.List.{AllByRecursion};
ghost use Rattle.mine_model.specs.Limits.{most_leaves, most_told_leaves, most_nested};
ghost use Rattle.mine_model.specs.Expression.{unfolded_leaves};
ghost use Rattle.mine_model.specs.Numbered.{tree_of};
ghost use Rattle.patex_parser.specs.Reading.{IsMarked};
ghost use Rattle.patex_parser.specs.Checking.{IsRepeatFault, IsDepthFault, IsNotTooDeep, IsLeavesFault, IsTooDeepAt, effect_of, open_step, signs_step};

use super::patex_fault::PatexFault;
use super::token::{Kind, Mark, ReadToken};
use mine_model::Expr;

// The most item expressions once all repetitions are written out.
const MOST_LEAVES: u32 = 1024;

// A greater number of them is told as this.
const MOST_TOLD: u32 = 1_000_000;

// The most open brackets, and postfix signs in a row.
const MOST_NESTED: u32 = 128;

/// Refuses the first repeat of no right form, and else the first with a number that is too great.
pub(crate) fn check_repeats(tokens: &[ReadToken]) -> Result<(), PatexFault>
    ensures ok { OnOk result (AllByRecursion IsMarked tokens.now) }
    ensures err { IfErr result (IsRepeatFault tokens.now) }
{
    let mut beyond = None;
    for token in tokens {
        let column = token.column;
        match token.kind {
            Kind::Mark(_) => {}
            Kind::BadRepeat => return Err(PatexFault::BadRepeat { column }),
            Kind::BeyondLimit => beyond = beyond.or(Some(column)),
        }
    }
    match beyond {
        Some(column) => Err(PatexFault::RepeatLimit { column }),
        None => Ok(()),
    }
}

/// The brackets that are open, and the postfix signs that stand last in a row.
#[derive(Clone, Copy)]
struct Depth {
    open: u32,
    signs: u32,
}

impl Depth {
    // The depth behind one more token. None where it is too deep.
    fn behind(self, kind: Kind) -> Option<Depth>
        requires open { self.open ≤ most_nested }
        requires signs { self.signs ≤ most_nested }
        ensures open { IfSome result
            (λ depth. (depth.open ≡ open_step self.open (effect_of kind)) × (depth.open ≤ most_nested)) }
        ensures signs { IfSome result
            (λ depth. (depth.signs ≡ signs_step self.signs (effect_of kind)) × (depth.signs ≤ most_nested)) }
        ensures some { IfSome result (λ depth. IsTooDeepAt self.open self.signs (effect_of kind) → ⊥) }
        ensures none { IfNone result (IsTooDeepAt self.open self.signs (effect_of kind)) }
    {
        let (open, signs) = match kind {
            Kind::Mark(Mark::Opening(_)) => (self.open + 1, 0),
            Kind::Mark(Mark::Closing(_)) => (self.open.saturating_sub(1), 0),
            Kind::Mark(Mark::Postfix { .. }) => (self.open, self.signs + 1),
            _ => (self.open, 0),
        };
        if open > MOST_NESTED || signs > MOST_NESTED {
            return None;
        }
        Some(Depth { open, signs })
    }
}

/// Refuses the first bracket that opens inside too many, or postfix sign that comes after too many.
pub(crate) fn check_depth(tokens: &[ReadToken]) -> Result<(), PatexFault>
    ensures ok { OnOk result (IsNotTooDeep tokens.now) }
    ensures err { IfErr result (IsDepthFault tokens.now) }
{
    let mut depth = Depth { open: 0, signs: 0 };
    for token in tokens {
        let Some(deeper) = depth.behind(token.kind) else {
            return Err(PatexFault::TooDeep {
                column: token.column,
            });
        };
        depth = deeper;
    }
    Ok(())
}

// The item expressions of a tree once all repetitions are written out, at most a million.
fn leaves(tree: &Expr) -> u32
    ensures { result ≡ min (unfolded_leaves (tree_of tree.now)) most_told_leaves }
{
    match tree {
        Expr::Leaf(_) => 1,
        Expr::Cat(left, right) => (leaves(left) + leaves(right)).min(MOST_TOLD),
        Expr::Alt(left, right) => (leaves(left) + leaves(right)).min(MOST_TOLD),
        Expr::Rep { inner, least, most } => {
            let times = most.unwrap_or((*least).max(1));
            (times as u64 * leaves(inner) as u64).min(MOST_TOLD as u64) as u32
        }
        Expr::Cap(inner) => leaves(inner),
    }
}

/// Refuses a tree of too many leaves.
pub(crate) fn check_leaves(tree: &Expr) -> Result<(), PatexFault>
    ensures ok { OnOk result (unfolded_leaves (tree_of tree.now) ≤ most_leaves) }
    ensures err { IfErr result (IsLeavesFault (tree_of tree.now)) }
{
    let count = leaves(tree);
    if count > MOST_LEAVES {
        return Err(PatexFault::TooManyLeaves { count });
    }
    Ok(())
}
