ghost use Rattle.std.specs.Prelude.{ℕ, map, IfOk, OnOk, IfErr};
ghost use Rattle.mine_model.specs.declared.fault.Fault.{Fault};
ghost use Rattle.mine_model.specs.Numbered.{tree_of};
ghost use Rattle.mine_model.specs.Refusal.{IsExpressionRefusal};
ghost use Rattle.patex_parser.specs.Parsing.{use_view, IsParsed, IsRefused};

use super::checks::{check_depth, check_leaves, check_repeats};
use super::parsed::Parsed;
use super::patex_fault::PatexFault;
use super::reading::read;
use super::scan::scan;
use std::alloc::Global;

// The most bytes of an expression.
const MOST_BYTES: usize = 4096;

/// Reads a pattern expression. A refusal has the place of its fault. The kind of a refusal decides which
/// comes first, in the order of `PatexFault`, and within a kind the place.
pub fn parse(alloc: Global, text: &[u8]) -> Result<Parsed, PatexFault>
    ensures parsed { IfOk result (λ p. IsParsed text.now (tree_of p.tree) (map use_view p.uses.items)) }
    ensures accepted { OnOk result ((fault : Fault) → IsExpressionRefusal text.now fault → ⊥) }
    ensures refused { IfErr result (IsRefused (IsExpressionRefusal text.now)) }
{
    if text.len() > MOST_BYTES {
        return Err(PatexFault::TooLong);
    }
    let scanned = scan(alloc, text)?;
    check_repeats(scanned.tokens.as_slice())?;
    let tree = read(alloc, scanned.tokens.as_slice(), text.len() as u32 + 1)?;
    check_depth(scanned.tokens.as_slice())?;
    check_leaves(&tree)?;
    Ok(Parsed {
        tree,
        uses: scanned.uses,
    })
}
