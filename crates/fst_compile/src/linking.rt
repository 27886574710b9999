ghost use Rattle.std.specs.Prelude.{◌≡◌, ◌+◌, ◌≤◌, length, IfOk};
ghost use Rattle.mine_model.specs.Expression.{unfolded_leaves};
ghost use Rattle.mine_model.specs.Numbered.{tree_of};
ghost use Rattle.fst_compile.specs.Fragments.{IsBuilt};

use super::fragment::Fragment;
use super::repeating::{add_copy, is_enough, repeat_bare, times};
use super::rows::States;
use mine_model::{Expr, NoMemory};
use std::alloc::Global;

/// Adds the edges between the states of the expression, of which the first has the number `at`.
pub(crate) fn add_edges(
    alloc: Global,
    rows: &mut [States],
    expr: &Expr,
    at: u32,
) -> Result<Fragment, NoMemory>
    requires room { at + unfolded_leaves (tree_of expr.now) ≤ length rows.old }
    requires few { length rows.old ≤ 1088 }
    ensures { IfOk result (IsBuilt (tree_of expr.now) at rows.old rows.new) }
{
    match expr {
        Expr::Leaf(_) => Ok(Fragment::state(alloc, at)?),
        Expr::Cat(left, right) => {
            let front = add_edges(alloc, rows, left, at)?;
            let back = add_edges(alloc, rows, right, at + front.size)?;
            front.and_then(rows, back)
        }
        Expr::Alt(left, right) => {
            let one = add_edges(alloc, rows, left, at)?;
            let other = add_edges(alloc, rows, right, at + one.size)?;
            one.or(other)
        }
        Expr::Rep { inner, least, most } => {
            let mut index = times(*least, *most);
            let mut rest = Fragment::bare(alloc, is_enough(*least, *most));
            if index == 0 {
                return Ok(rest);
            }
            let front = add_edges(alloc, rows, inner, at)?;
            let size = front.size;
            if size == 0 {
                return Ok(repeat_bare(front, *least, *most));
            }
            'copies: while index > 1 {
                index -= 1;
                let copy = add_edges(alloc, rows, inner, at + index * size)?;
                rest = add_copy(rows, copy, rest, *least, *most, index)?;
            }
            add_copy(rows, front, rest, *least, *most, 0)
        }
        Expr::Cap(inner) => add_edges(alloc, rows, inner, at),
    }
}
