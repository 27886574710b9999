ghost use Rattle.std.specs.Prelude.{◌≡◌, ◌++◌, map, OnOk};
ghost use Rattle.mine_model.specs.Numbered.{tree_of};
ghost use Rattle.fst_compile.specs.Shape.{labels_of, unfold_tree};
ghost use Rattle.fst_compile.specs.Transducer.{entry_of};

use super::edge::Label;
use super::repeating::times;
use mine_model::{Expr, NoMemory};

/// Appends the labels of the expression's states, in the order of the text.
pub(crate) fn push_labels(
    labels: &mut Vec<Label>,
    expr: &Expr,
    captured: bool,
) -> Result<(), NoMemory>
    ensures { OnOk result (map entry_of labels.new.items ≡
        map entry_of labels.old.items ++ labels_of (unfold_tree (tree_of expr.now) captured)) }
{
    match expr {
        Expr::Leaf(leaf) => {
            labels.push(Label {
                leaf: *leaf,
                captured,
            })?;
        }
        Expr::Cat(left, right) | Expr::Alt(left, right) => {
            push_labels(labels, left, captured)?;
            push_labels(labels, right, captured)?;
        }
        Expr::Rep { inner, least, most } => {
            let mut left = times(*least, *most);
            'copies: while left > 0 {
                let before = labels.len();
                push_labels(labels, inner, captured)?;
                left = if labels.len() == before { 0 } else { left - 1 };
            }
        }
        Expr::Cap(inner) => push_labels(labels, inner, true)?,
    }
    Ok(())
}
