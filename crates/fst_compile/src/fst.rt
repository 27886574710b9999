ghost use Rattle.std.specs.Prelude.{◌≡◌, ℕ, ◌+◌, ◌-◌, ◌<◌, ◌≤◌, ◌↔◌, length, vec_len, IfOk, IsTrue, Contains, slice_index_or};
ghost use Rattle.state_bits.specs.Members.{Has};
ghost use Rattle.mine_model.specs.Numbered.{tree_of};

use super::edge::{Edge, Label, State};
use super::rowing::edges_of_rows;
use super::rows::States;
use flat_lists::FlatLists;
use mine_model::{Expr, Leaf, NoMemory};
use std::alloc::Global;
use std::marker::Model;

/// A compiled expression. Its edges are listed by the state that they leave and, for one state, by the rising
/// state that they lead to; at most one leads from a state to another.
pub struct Fst {
    expression: Expr,
    labels: Vec<Label>,
    edges: FlatLists<Edge>,
    finals: States,
}

// Written out, so that it is let go of by a call, and not part by part wherever one is.
impl Drop for Fst {
    fn drop(self) {
        let Fst {
            expression: _,
            labels: _,
            edges: _,
            finals: _,
        } = self;
    }
}

impl Model for Fst {
    ghost use Rattle.fst_compile.specs.Transducer.{Transducer};

    ghost Value = { Transducer };

    ghost use Rattle.mine_model.specs.contracts.expression.Expr as e;
    ghost use Rattle.std.specs.Coded.{codes};

    ghost coded = { Prim.hlevel (codes, e.the_row.coded) };

    ghost use Rattle.std.specs.Prelude.{◌≡◌, ◌+◌, ◌≤◌, length, ℕ, All};
    ghost use Rattle.state_bits.specs.Members.{Has};
    ghost use Rattle.fst_compile.specs.Transducers.{IsRow};

    ghost view = { λ a. record {
      expression = a.expression;
      labels = a.labels.items;
      edges = a.edges.lists;
      finals = a.finals;
    } };

    ghost invariant = { λ a. All (IsRow a.labels.items) a.edges.lists
        × (length a.edges.lists ≡ length a.labels.items + 1) × (length a.labels.items ≤ 1024)
        × ((state : ℕ) → Has a.finals state → state ≤ length a.labels.items) };
}

impl Fst {
    ghost use Rattle.fst_compile.specs.Transducer.{edges_from, RisesByTarget, Enters};

    /// The expression that it was compiled from. Takes no memory.
    pub fn expr(&self) -> &Expr
        ensures { tree_of result.now ≡ tree_of self.now.expression }
    {
        &self.expression
    }

    /// The number of states. Takes no memory.
    pub fn states(&self) -> u32
        ensures states { result ≡ length self.now.labels + 1 }
        ensures few { result ≤ 1025 }
        ensures finals { (state : ℕ) → Has self.now.finals state → state < result }
    {
        self.edges.len() as u32
    }

    /// The edges that leave state q. Takes no memory.
    pub fn edges(&self, q: State) -> &[Edge]
        requires { q.0 ≤ length self.now.labels }
        ensures edges { result.now ≡ edges_from self.now q.0 }
        ensures rising { RisesByTarget result.now }
        ensures labelled { (edge : _) → Contains result.now edge → Enters self.now.labels edge }
    {
        self.edges.list(q.0 as usize)
    }

    /// Whether a path may end in state q. Takes no memory.
    pub fn is_final(&self, q: State) -> bool
        requires { q.0 ≤ length self.now.labels }
        ensures { IsTrue result ↔ Has self.now.finals q.0 }
    {
        let _ = &self.expression;
        self.finals.has(q.0)
    }

    /// What the edges into state k read. Takes no memory.
    pub fn leaf(&self, k: State) -> Leaf
        requires start { 0 < k.0 }
        requires state { k.0 ≤ length self.now.labels }
        ensures { (default : _) → result ≡ (slice_index_or self.now.labels (k.0 - 1) default).leaf }
    {
        self.labels[k.0 as usize - 1].leaf
    }

    /// Whether the edges into state k write. Takes no memory.
    pub fn is_captured(&self, k: State) -> bool
        requires start { 0 < k.0 }
        requires state { k.0 ≤ length self.now.labels }
        ensures { (default : _) → result ≡ (slice_index_or self.now.labels (k.0 - 1) default).captured }
    {
        self.labels[k.0 as usize - 1].captured
    }
}

impl Fst {
    ghost use Rattle.fst_compile.specs.Transducer.{Enters, Leads, edges_from};
    ghost use Rattle.fst_compile.specs.Rows.{HasEdge};

    /// The transducer with these labels, whose edges lead from each state to those of its row.
    pub(crate) fn from_rows(
        alloc: Global,
        expression: Expr,
        labels: Vec<Label>,
        rows: &[States],
        finals: States,
    ) -> Result<Fst, NoMemory>
        requires rows { length rows.now ≡ vec_len labels + 1 }
        requires few { vec_len labels ≤ 1024 }
        requires states { (from to : ℕ) → HasEdge rows.now from to → (0 < to) × (to ≤ vec_len labels) }
        requires finals { (state : ℕ) → Has finals state → state ≤ vec_len labels }
        ensures parts { IfOk result (λ m. (m.expression ≡ expression)
            × (m.labels ≡ labels.items) × (m.finals ≡ finals)) }
        ensures edges { IfOk result (λ m. (from to : ℕ) → Leads m from to ↔ HasEdge rows.now from to) }
        ensures labelled { IfOk result (λ m. (state : ℕ) (edge : _)
            → Contains (edges_from m state) edge → Enters m.labels edge) }
    {
        let edges = edges_of_rows(alloc, labels.as_slice(), rows)?;
        Ok(Fst {
            expression,
            labels,
            edges,
            finals,
        })
    }
}
