ghost use Rattle.std.specs.Prelude.{IfOk, IfErr, length};
ghost use Rattle.std.specs.List.{AllByRecursion};
ghost use Rattle.mine_model.specs.Numbered.{tree_of};
ghost use Rattle.patex_parser.specs.Reading.{IsMarked, IsReadWhole, IsUnexpectedFault};

use super::machine::Machine;
use super::patex_fault::PatexFault;
use super::token::{Kind, ReadToken};
use mine_model::Expr;
use std::alloc::Global;

/// Reads tokens as an expression, behind the last of which the text ends at the column `end`.
pub(crate) fn read(alloc: Global, tokens: &[ReadToken], end: u32) -> Result<Expr, PatexFault>
    requires { AllByRecursion IsMarked tokens.now }
    ensures ok { IfOk result (λ tree. IsReadWhole tokens.now (tree_of tree)) }
    ensures err { IfErr result (IsUnexpectedFault tokens.now end) }
{
    let mut machine = Machine::new(alloc);
    for token in tokens {
        let Kind::Mark(mark) = token.kind else {
            unreachable!();
        };
        let Some(next) = machine.step(alloc, mark)? else {
            return Err(PatexFault::Unexpected {
                column: token.column,
            });
        };
        machine = next;
    }
    match machine.finish(alloc)? {
        Some(tree) => Ok(tree),
        None => Err(PatexFault::Unexpected { column: end }),
    }
}
