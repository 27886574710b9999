//! Whether a path is good.

ghost use Rattle.std.specs.Prelude.{◌≡◌, ℕ, ◌≤◌, ◌<◌, ◌↔◌, List, ◌∷◌, length, All, Contains, IsTrue, MatchOption};
ghost use Rattle.mine_model.specs.declared.item.Item.{Item};
ghost use Rattle.mine_model.specs.Hierarchy.{IsAncestor};
ghost use Rattle.mine_model.specs.Numbered.{leaf_of};
ghost use Rattle.mine_model.specs.Generation.{Matches, MayWrite};
ghost use Rattle.fst_compile.specs.declared.edge.Edge.{Edge};
ghost use Rattle.fst_compile.specs.Transducer.{RisesByTarget};
ghost use Rattle.pattern_proof.specs.Reading.{numbers_of};
ghost use Rattle.pattern_proof.specs.Runs.{Writes};
ghost use Rattle.pattern_proof.specs.Steps.{IsRun};

use fst_compile::{Edge, Fst, State};
use mine_model::{Hierarchy, Item, Leaf};
use mining_job::Job;

/// Whether the states, one for each item of the sequence with this number, counted from 0, are a path from
/// the start to a final state that writes the pattern. Takes no memory.
pub fn checks(job: &Job, seq: u32, pattern: &[Item], path: &[State]) -> bool
    requires { seq < length job.now.sequences }
    ensures { IsTrue result ↔ Writes job.now seq (numbers_of path.now) pattern.now }
{
    writes(
        job.hierarchy(),
        job.fst(),
        job.db().sequence(seq),
        pattern,
        path,
    )
}

/// Whether the states are a run from the start over the items that writes the pattern.
fn writes(
    hierarchy: &Hierarchy,
    fst: &Fst,
    items: &[Item],
    pattern: &[Item],
    path: &[State],
) -> bool
    requires { All (λ t. t.0 < hierarchy.now.items) items.now }
    ensures { IsTrue result
        ↔ IsRun hierarchy.now.links fst.now 0 (numbers_of path.now) items.now pattern.now }
{
    if items.len() != path.len() {
        return false;
    }
    let mut state = State(0);
    let mut rest = pattern;
    let mut at = 0;
    while at < items.len() {
        match step(hierarchy, fst, state, path[at], items[at], rest) {
            Some(left) => rest = left,
            None => return false,
        }
        state = path[at];
        at += 1;
    }
    if rest.is_empty() {
        fst.is_final(state)
    } else {
        false
    }
}

/// What is left of a pattern behind what the edge between the states writes at t. None where no such edge
/// writes what the pattern begins with.
fn step<'a>(
    hierarchy: &Hierarchy,
    fst: &Fst,
    from: State,
    to: State,
    t: Item,
    rest: &'a [Item],
) -> Option<&'a [Item]>
    requires from { from.0 ≤ length fst.now.labels }
    requires t { t.0 < hierarchy.now.items }
    ensures { MatchOption result ((states : List ℕ) (items : List Item)
        → IsRun hierarchy.now.links fst.now from.0 (to.0 ∷ states) (t ∷ items) rest.now → ⊥)
        (λ left. (to.0 ≤ length fst.now.labels) × ((states : List ℕ) (items : List Item)
        → IsRun hierarchy.now.links fst.now from.0 (to.0 ∷ states) (t ∷ items) rest.now
        ↔ IsRun hierarchy.now.links fst.now to.0 states items left.now)) }
{
    let Some(edge) = edge_to(fst.edges(from), to) else {
        return None;
    };
    if !matches(hierarchy, edge.leaf, t) {
        return None;
    }
    if !edge.captured {
        return Some(rest);
    }
    let Some((first, left)) = rest.split_first() else {
        return None;
    };
    if !may_write(hierarchy, edge.leaf, t, *first) {
        return None;
    }
    Some(left)
}

/// The edge to this state, of edges that rise by the state that they lead to.
fn edge_to(edges: &[Edge], to: State) -> Option<Edge>
    requires { RisesByTarget edges.now }
    ensures { MatchOption result ((edge : Edge) → Contains edges.now edge → edge.to.0 ≡ to.0 → ⊥)
        (λ edge. Contains edges.now edge × (edge.to.0 ≡ to.0)) }
{
    let mut low = 0;
    let mut high = edges.len();
    while low < high {
        let middle = low + (high - low) / 2;
        let found = edges[middle].to.0;
        if found == to.0 {
            return Some(edges[middle]);
        }
        if found < to.0 {
            low = middle + 1;
        } else {
            high = middle;
        }
    }
    None
}

/// Whether the leaf matches t.
pub(crate) fn matches(hierarchy: &Hierarchy, leaf: Leaf, t: Item) -> bool
    requires { t.0 < hierarchy.now.items }
    ensures { IsTrue result ↔ Matches hierarchy.now.links (leaf_of leaf) t }
{
    match leaf {
        Leaf::Under(w) => stands_above(hierarchy, t, w),
        Leaf::Exact(w) => t == w,
        Leaf::Climb(w) => stands_above(hierarchy, t, w),
        Leaf::Forced(w) => stands_above(hierarchy, t, w),
        Leaf::Any => true,
        Leaf::AnyClimb => true,
        Leaf::Not(w) => !stands_above(hierarchy, t, w),
        Leaf::NotExact(w) => t != w,
    }
}

/// Whether the leaf may write v at t.
pub(crate) fn may_write(hierarchy: &Hierarchy, leaf: Leaf, t: Item, v: Item) -> bool
    requires { t.0 < hierarchy.now.items }
    ensures { IsTrue result ↔ MayWrite hierarchy.now.links (leaf_of leaf) t v }
{
    match leaf {
        Leaf::Under(_) => v == t,
        Leaf::Exact(w) => v == w,
        Leaf::Climb(w) => stands_between(hierarchy, t, v, w),
        Leaf::Forced(w) => v == w,
        Leaf::Any => v == t,
        Leaf::AnyClimb => stands_above(hierarchy, t, v),
        Leaf::Not(_) => v == t,
        Leaf::NotExact(_) => v == t,
    }
}

/// Whether v is t or stands above t, and w is v or stands above v.
fn stands_between(hierarchy: &Hierarchy, t: Item, v: Item, w: Item) -> bool
    requires { t.0 < hierarchy.now.items }
    ensures { IsTrue result ↔ (IsAncestor hierarchy.now.links v t × IsAncestor hierarchy.now.links w v) }
{
    if v.0 >= hierarchy.items() {
        return false;
    }
    if !hierarchy.is_above(t, v) {
        return false;
    }
    stands_above(hierarchy, v, w)
}

/// Whether w is t or stands above t, where w may be no item of the hierarchy.
fn stands_above(hierarchy: &Hierarchy, t: Item, w: Item) -> bool
    requires { t.0 < hierarchy.now.items }
    ensures { IsTrue result ↔ IsAncestor hierarchy.now.links w t }
{
    if w.0 >= hierarchy.items() {
        return false;
    }
    hierarchy.is_above(t, w)
}
