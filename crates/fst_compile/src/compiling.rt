ghost use Rattle.std.specs.Prelude.{◌≡◌, ℕ, ◌<◌, ◌≤◌, ◌⊎◌, ◌↔◌, ◌+◌, length, slice_index, IfOk, IsTrue, All, Contains};
ghost use Rattle.state_bits.specs.Members.{Has};
ghost use Rattle.mine_model.specs.Limits.{most_leaves};
ghost use Rattle.mine_model.specs.Expression.{unfolded_leaves};
ghost use Rattle.mine_model.specs.Numbered.{tree_of};
ghost use Rattle.fst_compile.specs.Transducers.{IsWhole};
ghost use Rattle.fst_compile.specs.Transducer.{IsPositionAutomaton, IsTransducerOf};

use super::copying::copy_of;
use super::fragment::Fragment;
use super::fst::Fst;
use super::labelling::push_labels;
use super::linking::add_edges;
use super::rows::{States, set_of};
use mine_model::{Expr, NoMemory};
use std::alloc::Global;

/// The transducer of an expression: its position automaton (Glushkov), with repetitions written out. It keeps
/// the expression.
pub fn compile(alloc: Global, expr: &Expr) -> Result<Fst, NoMemory>
    requires { unfolded_leaves (tree_of expr.now) ≤ most_leaves }
    ensures expression { IfOk result (λ transducer. tree_of transducer.expression ≡ tree_of expr.now) }
    ensures states { IfOk result (λ transducer. length transducer.labels
        ≡ unfolded_leaves (tree_of expr.now)) }
    ensures automaton { IfOk result (λ transducer. IsPositionAutomaton transducer (tree_of expr.now)) }
    ensures paths { IfOk result (λ transducer. IsTransducerOf transducer (tree_of expr.now)) }
{
    let expression = copy_of(alloc, expr)?;
    let mut labels = Vec::new(alloc);
    push_labels(&mut labels, expr, false)?;
    let mut rows = empty_rows(alloc, labels.len() + 1)?;
    let finals = add_all_edges(alloc, rows.as_mut_slice(), expr)?;
    Fst::from_rows(alloc, expression, labels, rows.as_slice(), finals)
}

// Rows of no edge.
fn empty_rows(alloc: Global, count: usize) -> Result<Vec<States>, NoMemory>
    ensures long { IfOk result (λ rows. length rows.items ≡ count) }
    ensures none { IfOk result (λ rows. (from : ℕ) → slice_index rows.items from ≡ 0) }
{
    let mut rows = Vec::new(alloc);
    for _row in 0..count {
        rows.push(States::new())?;
    }
    Ok(rows)
}

// Adds the edges of the whole expression, from the start on, and gives the final states.
fn add_all_edges(alloc: Global, rows: &mut [States], expr: &Expr) -> Result<States, NoMemory>
    requires room { length rows.old ≡ unfolded_leaves (tree_of expr.now) + 1 }
    requires few { length rows.old ≤ 1025 }
    requires none { (from : ℕ) → slice_index rows.old from ≡ 0 }
    ensures { IfOk result (IsWhole (tree_of expr.now) rows.new) }
{
    let whole = add_edges(alloc, rows, expr, 1)?;
    rows[0] = set_of(whole.first.as_slice());
    Ok(finals_of(&whole))
}

// The states in which a path through the whole expression may end.
fn finals_of(whole: &Fragment) -> States
    requires { All (λ k. k < 1088) whole.now.last.items }
    ensures { (k : ℕ) → Has result k
        ↔ (((k ≡ 0) × IsTrue whole.now.empty) ⊎ Contains whole.now.last.items k) }
{
    let mut finals = set_of(whole.last.as_slice());
    if whole.empty {
        finals.add(0);
    }
    finals
}
