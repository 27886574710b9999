//! Reads what a command mines by: an expression, or a rule of gaps and lengths.

ghost use Rattle.std.specs.Prelude.{◌≡◌, ◌⊎◌, ◌≤◌, ◌<◌, ℕ, [], min, map, IfOk, IfErr, OnOk};
ghost use Rattle.mine_model.specs.declared.fault.Fault.{Fault};
ghost use Rattle.mine_model.specs.declared.fault.Fault.TheVariants.{NoMemory as OutOfMemory, TooManyLeaves};
ghost use Rattle.mine_model.specs.Limits.{most_leaves, most_told_leaves};
ghost use Rattle.mine_model.specs.Expression.{unfolded_leaves};
ghost use Rattle.mine_model.specs.Numbered.{tree_of};
ghost use Rattle.mine_model.specs.Refusal.{IsExpressionRefusal};
ghost use Rattle.gap_front.specs.Embedding.{IsRule, leaves_of, tree_of_rule};
ghost use Rattle.patex_parser.specs.Parsing.{use_view, IsParsed};
ghost use Rattle.command_line.specs.Commands.{source_said};
ghost use Rattle.desq_run.specs.Sources.{IsSourceRefusal};
ghost use Rattle.desq_run.specs.Inputs.{HasRanges, IsMinedBy, IsRead};

use command_line::Source;
use gap_front::{GapRule, expression};
use mine_model::Fault;
use patex_parser::{Parsed, parse};
use std::alloc::Global;

/// The most item expressions of an expression once all repetitions are written out.
const MOST_LEAVES: u64 = 1_024;

/// A greater number of them is told as this.
const MOST_TOLD_LEAVES: u64 = 1_000_000;

/// The expression that the text reads as.
fn read_expression(alloc: Global, text: &[u8]) -> Result<Parsed, Fault>
    ensures parsed { IfOk result (λ p. IsParsed text.now (tree_of p.tree) (map use_view p.uses.items)) }
    ensures accepted { OnOk result ((fault : Fault) → ¬ IsExpressionRefusal text.now fault) }
    ensures refused { IfErr result (λ fault. (fault ≡ OutOfMemory) ⊎ IsExpressionRefusal text.now fault) }
    ensures leaves { IfOk result (λ p. unfolded_leaves (tree_of p.tree) ≤ most_leaves) }
{
    Ok(parse(alloc, text)?)
}

/// The expression of the rule, which uses no name.
fn expression_of_rule(alloc: Global, rule: &GapRule) -> Result<Parsed, Fault>
    requires ranges { IsRule rule.now }
    requires order { rule.now.min_length ≤ rule.now.max_length }
    ensures tree { IfOk result (λ p. tree_of p.tree ≡ tree_of_rule rule.now) }
    ensures uses { IfOk result (λ p. p.uses.items ≡ []) }
    ensures accepted { OnOk result (leaves_of rule.now ≤ most_leaves) }
    ensures refused { IfErr result (λ fault. (fault ≡ OutOfMemory) ⊎ ((most_leaves < leaves_of rule.now)
        × (fault ≡ TooManyLeaves (min (leaves_of rule.now) most_told_leaves)))) }
    ensures leaves { IfOk result (λ p. unfolded_leaves (tree_of p.tree) ≤ most_leaves) }
{
    let leaves = rule.leaves();
    if leaves > MOST_LEAVES {
        return Err(Fault::TooManyLeaves {
            count: leaves.min(MOST_TOLD_LEAVES) as u32,
        });
    }
    Ok(Parsed {
        tree: expression(alloc, rule)?,
        uses: Vec::new(alloc),
    })
}

/// The expression of a source. It is read before a file is opened.
pub(crate) fn read_source(alloc: Global, source: &Source) -> Result<Parsed, Fault>
    requires mined { IsMinedBy (source_said source.now) }
    requires ranges { HasRanges (source_said source.now) }
    ensures read { IfOk result (λ p.
        IsRead (source_said source.now) (map use_view p.uses.items) (tree_of p.tree)) }
    ensures accepted { OnOk result ((fault : Fault) → ¬ IsSourceRefusal (source_said source.now) fault) }
    ensures refused { IfErr result (λ fault. (fault ≡ OutOfMemory)
        ⊎ IsSourceRefusal (source_said source.now) fault) }
    ensures leaves { IfOk result (λ p. unfolded_leaves (tree_of p.tree) ≤ most_leaves) }
{
    match source {
        Source::Read { expression, .. } => read_expression(alloc, expression.as_bytes()),
        Source::Embed { rule, .. } => expression_of_rule(alloc, rule),
        Source::Make { expression, .. } => read_expression(alloc, expression.as_bytes()),
        Source::Merge { .. } => unreachable!(),
    }
}
