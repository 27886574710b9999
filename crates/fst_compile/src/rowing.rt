ghost use Rattle.std.specs.Prelude.{◌≡◌, ℕ, ◌<◌, ◌≤◌, ◌↔◌, length, IfOk, OnOk};
ghost use Rattle.state_bits.specs.Members.{Has};
ghost use Rattle.fst_compile.specs.Rows.{HasEdge};
ghost use Rattle.fst_compile.specs.Transducers.{IsRow, LeadTo, AreRowsOf};

use super::edge::{Edge, Label, State};
use super::rows::States;
use flat_lists::FlatLists;
use mine_model::NoMemory;
use std::alloc::Global;

/// Has an edge to each state of the row, with the label of that state, in place of what was there.
fn fill(edges: &mut Vec<Edge>, labels: &[Label], row: &States) -> Result<(), NoMemory>
    requires { (state : ℕ) → Has row.now state → (0 < state) × (state ≤ length labels.now) }
    ensures row { OnOk result (IsRow labels.now edges.new.items) }
    ensures targets { OnOk result (LeadTo row.now edges.new.items) }
{
    edges.clear();
    for state in row.iter() {
        let label = labels[state as usize - 1];
        edges.push(Edge {
            leaf: label.leaf,
            captured: label.captured,
            to: State(state),
        })?;
    }
    Ok(())
}

/// The edges of all rows.
pub(crate) fn edges_of_rows(
    alloc: Global,
    labels: &[Label],
    rows: &[States],
) -> Result<FlatLists<Edge>, NoMemory>
    requires { (from to : ℕ) → HasEdge rows.now from to → (0 < to) × (to ≤ length labels.now) }
    ensures { IfOk result (λ edges. AreRowsOf labels.now rows.now edges.lists (length rows.now)) }
{
    let mut edges = FlatLists::new(alloc);
    let mut of_one = Vec::new(alloc);
    for row in rows {
        fill(&mut of_one, labels, row)?;
        edges.push(of_one.as_slice())?;
    }
    Ok(edges)
}
