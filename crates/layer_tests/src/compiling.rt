//! The transducers of expressions, and what their leaves write.
ghost use Rattle.std.specs.Prelude.{◌≡◌, ◌*◌, ◌<◌, ◌≤◌, IfOk};
ghost use Rattle.std.specs.List.{AllByRecursion};
ghost use Rattle.mine_model.specs.Expression.{named_by, unfolded_leaves, unfolded_times};
ghost use Rattle.mine_model.specs.Numbered.{tree_of, leaf_of};

use super::data::{A, P, Q, R, Shape, X, expression, hierarchy};
use fst_compile::{Fst, State, compile, outputs};
use mine_model::{Expr, Item, Leaf, NoMemory};
use std::alloc::{AllocError, Global};
use std::fmt::Write;
use test_facts::first_false;

/// Writes the edges as `from>to`.
fn add_edges(text: &mut String, fst: &Fst) -> Result<(), NoMemory> {
    for q in 0..fst.states() {
        for edge in fst.edges(State(q)) {
            let to = edge.to.0;
            write!(text, "{q}>{to} ")?;
        }
    }
    Ok(())
}

/// Writes the final states, each with a dot.
fn add_finals(text: &mut String, fst: &Fst) -> Result<(), NoMemory> {
    for q in 0..fst.states() {
        if fst.is_final(State(q)) {
            write!(text, "{q}.")?;
        }
    }
    Ok(())
}

/// Whether these are the edges and the final states.
fn is_told(alloc: Global, fst: &Fst, want: &str) -> Result<bool, NoMemory> {
    let mut text = String::new(alloc);
    add_edges(&mut text, fst)?;
    add_finals(&mut text, fst)?;
    Ok(text.as_str() == want)
}

/// The same of what the expression is compiled to.
fn is_compiled(alloc: Global, expr: &Expr, want: &str) -> Result<bool, NoMemory>
    requires { unfolded_leaves (tree_of expr.now) ≤ 1024 }
{
    let fst = compile(alloc, expr)?;
    is_told(alloc, &fst, want)
}

/// The running expression is compiled to this, and the leaf of its second state is captured. The number of
/// the first wrong fact.
fn wrong_fact(alloc: Global, want: &str) -> Result<Option<usize>, NoMemory> {
    let expr = expression(alloc, Shape::Climbing)?;
    let fst = compile(alloc, &expr)?;
    let facts = [
        is_told(alloc, &fst, want)?,
        captured_leaf(&fst, State(2)) == Some(Leaf::Under(A)),
    ];
    Ok(first_false(&facts))
}

/// The leaf of a state that is captured.
fn captured_leaf(fst: &Fst, state: State) -> Option<Leaf> {
    if 0 < state.0 && state.0 < fst.states() && fst.is_captured(state) {
        return Some(fst.leaf(state));
    }
    None
}

#[test]
fn has_the_edges_of_the_running_expression(rt: HostRuntime) {
    let want = "0>1 0>2 1>1 1>2 2>3 2>4 2>5 3>3 3>4 3>5 4>3 4>4 4>5 5>6 6>6 5.6.";
    assert_eq!(rt; wrong_fact(rt.alloc(), want), Ok(None));
}

fn rep(alloc: Global, inner: Expr, least: u32, most: Option<u32>) -> Result<Expr, AllocError>
    ensures { IfOk result (λ e. unfolded_leaves (tree_of e) ≡
        unfolded_times least most * unfolded_leaves (tree_of inner)) }
{
    Ok(Expr::Rep {
        inner: Box::new(alloc, inner)?,
        least,
        most,
    })
}

fn one() -> Expr
    ensures { unfolded_leaves (tree_of result) ≡ 1 }
{
    Expr::Leaf(Leaf::Exact(A))
}

fn maybe_one(alloc: Global) -> Result<Expr, AllocError>
    ensures { IfOk result (λ e. unfolded_leaves (tree_of e) ≡ 1) }
{
    rep(alloc, one(), 0, Some(1))
}

/// Whether the repetition is compiled to this.
fn is_repeated(
    alloc: Global,
    inner: Expr,
    least: u32,
    most: Option<u32>,
    want: &str,
) -> Result<bool, NoMemory>
    requires { unfolded_times least most * unfolded_leaves (tree_of inner) ≤ 1024 }
{
    let expr = rep(alloc, inner, least, most)?;
    is_compiled(alloc, &expr, want)
}

/// The number of the first repetition that is compiled to something else.
fn wrong_repetition(alloc: Global) -> Result<Option<usize>, NoMemory> {
    let of_four = "0>1 0>2 0>3 1>2 1>3 2>3 0.1.2.3.";
    let facts = [
        is_repeated(alloc, one(), 0, Some(0), "0.")?,
        is_repeated(alloc, one(), 2, Some(3), "0>1 1>2 2>3 2.3.")?,
        is_repeated(alloc, one(), 2, None, "0>1 1>2 2>2 2.")?,
        is_repeated(alloc, maybe_one(alloc)?, 2, Some(3), of_four)?,
    ];
    Ok(first_false(&facts))
}

#[test]
fn writes_repetitions_out(rt: HostRuntime) {
    assert_eq!(rt; wrong_repetition(rt.alloc()), Ok(None));
}

/// `[[a?]{32}]{32}`
fn longest(alloc: Global) -> Result<Expr, AllocError>
    ensures { IfOk result (λ e. unfolded_leaves (tree_of e) ≡ 1024) }
{
    let row = rep(alloc, maybe_one(alloc)?, 32, Some(32))?;
    rep(alloc, row, 32, Some(32))
}

/// Whether the longest expression has so many states, and so many edges lead from the start.
fn is_longest(alloc: Global, states: u32, edges: usize) -> Result<bool, NoMemory> {
    let expr = longest(alloc)?;
    let fst = compile(alloc, &expr)?;
    Ok(fst.states() == states && fst.edges(State(0)).len() == edges)
}

#[test]
fn compiles_the_longest(rt: HostRuntime) {
    assert_eq!(rt; is_longest(rt.alloc(), 1_025, 1_024), Ok(true));
}

/// A name with 128 stars.
fn tower(alloc: Global) -> Result<Expr, AllocError>
    ensures { IfOk result (λ e. unfolded_leaves (tree_of e) ≡ 1) }
{
    let mut tower = one();
    for _sign in 0..128 {
        tower = rep(alloc, tower, 0, None)?;
    }
    Ok(tower)
}

fn is_one_name(alloc: Global) -> Result<bool, NoMemory> {
    is_repeated(alloc, tower(alloc)?, 0, None, "0>1 1>1 0.1.")
}

#[test]
fn compiles_many_signs_on_one_name(rt: HostRuntime) {
    assert_eq!(rt; is_one_name(rt.alloc()), Ok(true));
}

/// What the leaf writes on the item, where it is one and the leaf matches.
fn written(alloc: Global, leaf: Leaf, t: Item) -> Result<Option<Vec<Item>>, NoMemory>
    requires { AllByRecursion (λ w. w.0 < 11) (named_by (leaf_of leaf)) }
{
    let hierarchy = hierarchy(alloc)?;
    if t.0 >= hierarchy.items() {
        return Ok(None);
    }
    let mut out = Vec::new(alloc);
    let matches = outputs(&hierarchy, &leaf, t, &mut out)?;
    Ok(matches.then_some(out))
}

/// The first leaf that writes something else.
fn first_wrong(alloc: Global) -> Result<Option<Leaf>, NoMemory> {
    let table: [(Leaf, Item, Option<&[Item]>); 10] = [
        (Leaf::Under(P), X, Some(&[X])),
        (Leaf::Under(P), Q, None),
        (Leaf::Exact(P), X, None),
        (Leaf::Climb(P), X, Some(&[P, X])),
        (Leaf::Climb(R), X, Some(&[R, P, Q, X])),
        (Leaf::Forced(R), X, Some(&[R])),
        (Leaf::Any, P, Some(&[P])),
        (Leaf::AnyClimb, P, Some(&[R, P])),
        (Leaf::Not(P), X, None),
        (Leaf::NotExact(P), X, Some(&[X])),
    ];
    for (leaf, t, want) in table {
        if written(alloc, leaf, t)?.as_deref() != want {
            return Ok(Some(leaf));
        }
    }
    Ok(None)
}

#[test]
fn leaves_write_between_the_item_and_their_own(rt: HostRuntime) {
    assert_eq!(rt; first_wrong(rt.alloc()), Ok(None));
}
