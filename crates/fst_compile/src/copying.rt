ghost use Rattle.std.specs.Prelude.{◌≡◌, IfOk};
ghost use Rattle.mine_model.specs.Numbered.{tree_of};

use mine_model::{Expr, NoMemory};
use std::alloc::Global;

/// The same expression.
pub(crate) fn copy_of(alloc: Global, expr: &Expr) -> Result<Expr, NoMemory>
    ensures { IfOk result (λ copied. tree_of copied ≡ tree_of expr.now) }
{
    match expr {
        Expr::Leaf(leaf) => Ok(Expr::Leaf(*leaf)),
        Expr::Cat(left, right) => {
            let left = copy_of(alloc, left)?;
            let right = copy_of(alloc, right)?;
            Ok(Expr::Cat(Box::new(alloc, left)?, Box::new(alloc, right)?))
        }
        Expr::Alt(left, right) => {
            let left = copy_of(alloc, left)?;
            let right = copy_of(alloc, right)?;
            Ok(Expr::Alt(Box::new(alloc, left)?, Box::new(alloc, right)?))
        }
        Expr::Rep { inner, least, most } => {
            let inner = copy_of(alloc, inner)?;
            Ok(Expr::Rep {
                inner: Box::new(alloc, inner)?,
                least: *least,
                most: *most,
            })
        }
        Expr::Cap(inner) => {
            let inner = copy_of(alloc, inner)?;
            Ok(Expr::Cap(Box::new(alloc, inner)?))
        }
    }
}
