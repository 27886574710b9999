//! The data of the tests: items with their names and what stands above them, sequences, expressions, and
//! the job that is made of them.
ghost use Rattle.std.specs.Prelude.{◌≡◌, ◌+◌, ◌<◌, ◌≤◌, length, All, IfOk, IsTrue};
ghost use Rattle.std.specs.List.{AllByRecursion};
ghost use Rattle.mine_model.specs.Expression.{named_in, named_by, unfolded_leaves};
ghost use Rattle.mine_model.specs.Numbered.{tree_of, leaf_of};
ghost use Rattle.mine_model.specs.Ranks.{AreRanks};
ghost use Rattle.fst_compile.specs.Transducer.{IsPositionAutomaton, IsTransducerOf};

use frequency_list::count;
use fst_compile::{Fst, compile};
use item_names::Names;
use mine_model::{Db, Expr, Hierarchy, Item, Leaf, NoMemory, Ranks, Row};
use mining_job::Job;
use std::alloc::{AllocError, Global};
use std::fmt::Write;
use std::thread::Threads;

pub(crate) const A: Item = Item(0);

pub(crate) const A1: Item = Item(1);

pub(crate) const A2: Item = Item(2);

pub(crate) const B: Item = Item(3);

pub(crate) const C: Item = Item(4);

pub(crate) const D: Item = Item(5);

pub(crate) const E: Item = Item(6);

pub(crate) const R: Item = Item(7);

pub(crate) const P: Item = Item(8);

pub(crate) const Q: Item = Item(9);

pub(crate) const X: Item = Item(10);

pub(crate) const WORDS: [&str; 11] = ["A", "a1", "a2", "b", "c", "d", "e", "R", "P", "Q", "x"];

/// Sequences with their weights.
pub(crate) type Lines<'a> = &'a [(u64, &'a [Item])];

/// The running sequences. With the threshold 2 `b` has the rank 1, `A` 2, `a1` 3, `d` 4 and `c` 5.
pub(crate) const RUNNING: [(u64, &[Item]); 5] = [
    (1, &[A1, C, D, C, B]),
    (1, &[E, E, A1, E, A1, E, B]),
    (1, &[C, D, C, B]),
    (1, &[A2, D, B]),
    (1, &[A1, A1, B]),
];

/// `a1` and `a2` stand under `A`, and `x` under `P` and `Q`, which stand under `R`.
pub(crate) fn hierarchy(alloc: Global) -> Result<Hierarchy, NoMemory>
    ensures { IfOk result (λ h. h.items ≡ 11) }
{
    let ends = vec![in alloc; 1, 3, 5, 6, 7, 8, 9, 10, 12, 14, 18]?;
    let lists = vec![in alloc; A, A, A1, A, A2, B, C, D, E, R, R, P, R, Q, R, P, Q, X]?;
    Ok(Hierarchy::new(ends, lists))
}

/// The names of the items.
pub(crate) fn names_of(alloc: Global, words: &[&str; 11]) -> Result<Names, NoMemory>
    ensures { IfOk result (λ names. 11 ≤ length names) }
{
    let mut names = Names::new(alloc)?;
    for word in words {
        if names.intern(word.as_bytes()).is_err() {
            return Err(NoMemory);
        }
    }
    if names.count() < 11 {
        Err(NoMemory)
    } else {
        Ok(names)
    }
}

fn are_known(items: &[Item]) -> bool
    ensures { IsTrue result → All (λ t. t.0 < 11) items.now }
{
    for item in items {
        if item.0 >= 11 {
            return false;
        }
    }
    true
}

/// A database of these lines, each so many times.
pub(crate) fn database(alloc: Global, lines: Lines, times: u32) -> Result<Db, NoMemory>
    ensures { IfOk result (λ db. AllByRecursion (λ s. AllByRecursion (λ t. t.0 < 11) s.items) db) }
{
    let mut db = Db::new(alloc);
    for (weight, items) in lines {
        for _ in 0..times {
            if are_known(items) && db.sequences() < 4_194_304 && items.len() <= 65_535 {
                db.push_weighted(items, (*weight).clamp(1, 1_000_000_000))?;
            }
        }
    }
    Ok(db)
}

pub(crate) fn leaf(leaf: Leaf) -> Expr
    requires { AllByRecursion (λ w. w.0 < 11) (named_by (leaf_of leaf)) }
    ensures leaves { unfolded_leaves (tree_of result) ≡ 1 }
    ensures named { AllByRecursion (λ w. w.0 < 11) (named_in (tree_of result)) }
{
    Expr::Leaf(leaf)
}

pub(crate) fn cat(alloc: Global, left: Expr, right: Expr) -> Result<Expr, AllocError>
    requires left { AllByRecursion (λ w. w.0 < 11) (named_in (tree_of left)) }
    requires right { AllByRecursion (λ w. w.0 < 11) (named_in (tree_of right)) }
    ensures leaves { IfOk result (λ e. unfolded_leaves (tree_of e)
        ≡ unfolded_leaves (tree_of left) + unfolded_leaves (tree_of right)) }
    ensures named { IfOk result (λ e. AllByRecursion (λ w. w.0 < 11) (named_in (tree_of e))) }
{
    Ok(Expr::Cat(Box::new(alloc, left)?, Box::new(alloc, right)?))
}

pub(crate) fn alt(alloc: Global, left: Expr, right: Expr) -> Result<Expr, AllocError>
    requires left { AllByRecursion (λ w. w.0 < 11) (named_in (tree_of left)) }
    requires right { AllByRecursion (λ w. w.0 < 11) (named_in (tree_of right)) }
    ensures leaves { IfOk result (λ e. unfolded_leaves (tree_of e)
        ≡ unfolded_leaves (tree_of left) + unfolded_leaves (tree_of right)) }
    ensures named { IfOk result (λ e. AllByRecursion (λ w. w.0 < 11) (named_in (tree_of e))) }
{
    Ok(Expr::Alt(Box::new(alloc, left)?, Box::new(alloc, right)?))
}

pub(crate) fn star(alloc: Global, inner: Expr) -> Result<Expr, AllocError>
    requires { AllByRecursion (λ w. w.0 < 11) (named_in (tree_of inner)) }
    ensures leaves { IfOk result (λ e. unfolded_leaves (tree_of e) ≡ unfolded_leaves (tree_of inner)) }
    ensures named { IfOk result (λ e. AllByRecursion (λ w. w.0 < 11) (named_in (tree_of e))) }
{
    Ok(Expr::Rep {
        inner: Box::new(alloc, inner)?,
        least: 0,
        most: None,
    })
}

pub(crate) fn cap(alloc: Global, inner: Expr) -> Result<Expr, AllocError>
    requires { AllByRecursion (λ w. w.0 < 11) (named_in (tree_of inner)) }
    ensures leaves { IfOk result (λ e. unfolded_leaves (tree_of e) ≡ unfolded_leaves (tree_of inner)) }
    ensures named { IfOk result (λ e. AllByRecursion (λ w. w.0 < 11) (named_in (tree_of e))) }
{
    Ok(Expr::Cap(Box::new(alloc, inner)?))
}

/// The expressions of the tests.
#[derive(Clone, Copy)]
pub(crate) enum Shape {
    /// `.*(A)[(.^)|.]*(b).*`
    Climbing,
    /// `.*(A^=).*`
    Forced,
    /// `.*(.)[.*(.)]*.*`
    Subsequence,
    /// `.*(a1)(b).*`
    Pair,
    /// `.*`
    Silent,
    /// `(a1){n}`, with n up to 1,024.
    Times(u32),
}

/// The expression of a shape.
pub(crate) fn expression(alloc: Global, shape: Shape) -> Result<Expr, AllocError>
    ensures leaves { IfOk result (λ e. unfolded_leaves (tree_of e) ≤ 1024) }
    ensures named { IfOk result (λ e. AllByRecursion (λ w. w.0 < 11) (named_in (tree_of e))) }
{
    match shape {
        Shape::Climbing => between(alloc, climbing(alloc)?),
        Shape::Forced => between(alloc, cap(alloc, leaf(Leaf::Forced(A)))?),
        Shape::Subsequence => between(alloc, subsequence(alloc)?),
        Shape::Pair => between(alloc, pair(alloc)?),
        Shape::Silent => star(alloc, leaf(Leaf::Any)),
        Shape::Times(n) => times(alloc, n.min(1_024)),
    }
}

/// `.*`, the inner expression and `.*`.
fn between(alloc: Global, inner: Expr) -> Result<Expr, AllocError>
    requires { AllByRecursion (λ w. w.0 < 11) (named_in (tree_of inner)) }
    ensures leaves { IfOk result (λ e. unfolded_leaves (tree_of e)
        ≡ 1 + unfolded_leaves (tree_of inner) + 1) }
    ensures named { IfOk result (λ e. AllByRecursion (λ w. w.0 < 11) (named_in (tree_of e))) }
{
    let begun = cat(alloc, star(alloc, leaf(Leaf::Any))?, inner)?;
    cat(alloc, begun, star(alloc, leaf(Leaf::Any))?)
}

/// `(A)[(.^)|.]*(b)`
fn climbing(alloc: Global) -> Result<Expr, AllocError>
    ensures leaves { IfOk result (λ e. unfolded_leaves (tree_of e) ≤ 4) }
    ensures named { IfOk result (λ e. AllByRecursion (λ w. w.0 < 11) (named_in (tree_of e))) }
{
    let either = alt(alloc, cap(alloc, leaf(Leaf::AnyClimb))?, leaf(Leaf::Any))?;
    let begun = cat(
        alloc,
        cap(alloc, leaf(Leaf::Under(A)))?,
        star(alloc, either)?,
    )?;
    cat(alloc, begun, cap(alloc, leaf(Leaf::Under(B)))?)
}

/// `(.)[.*(.)]*`
fn subsequence(alloc: Global) -> Result<Expr, AllocError>
    ensures leaves { IfOk result (λ e. unfolded_leaves (tree_of e) ≤ 4) }
    ensures named { IfOk result (λ e. AllByRecursion (λ w. w.0 < 11) (named_in (tree_of e))) }
{
    let next = cat(
        alloc,
        star(alloc, leaf(Leaf::Any))?,
        cap(alloc, leaf(Leaf::Any))?,
    )?;
    cat(alloc, cap(alloc, leaf(Leaf::Any))?, star(alloc, next)?)
}

/// `(a1)(b)`
fn pair(alloc: Global) -> Result<Expr, AllocError>
    ensures leaves { IfOk result (λ e. unfolded_leaves (tree_of e) ≤ 4) }
    ensures named { IfOk result (λ e. AllByRecursion (λ w. w.0 < 11) (named_in (tree_of e))) }
{
    let first = cap(alloc, leaf(Leaf::Under(A1)))?;
    cat(alloc, first, cap(alloc, leaf(Leaf::Under(B)))?)
}

/// `(a1){n}`
fn times(alloc: Global, n: u32) -> Result<Expr, AllocError>
    ensures leaves { IfOk result (λ e. unfolded_leaves (tree_of e) ≡ n) }
    ensures named { IfOk result (λ e. AllByRecursion (λ w. w.0 < 11) (named_in (tree_of e))) }
{
    let one = cap(alloc, leaf(Leaf::Under(A1)))?;
    Ok(Expr::Rep {
        inner: Box::new(alloc, one)?,
        least: n,
        most: Some(n),
    })
}

/// The transducer of a shape.
fn transducer(alloc: Global, shape: Shape) -> Result<Fst, NoMemory>
    ensures named { IfOk result
        (λ fst. AllByRecursion (λ w. w.0 < 11) (named_in (tree_of fst.expression))) }
    ensures automaton { IfOk result (λ fst. IsPositionAutomaton fst (tree_of fst.expression)) }
    ensures paths { IfOk result (λ fst. IsTransducerOf fst (tree_of fst.expression)) }
{
    let expr = expression(alloc, shape)?;
    compile(alloc, &expr)
}

/// The ranks of the items in these sequences.
fn ranked<T: Threads + Sync>(
    rt: &T,
    alloc: Global,
    hierarchy: &Hierarchy,
    db: &Db,
    threshold: u64,
) -> Result<Ranks, NoMemory>
    requires threshold { 1 ≤ threshold }
    requires items { AllByRecursion (λ s. AllByRecursion (λ t. t.0 < 11) s.items) db.now }
    requires all { hierarchy.now.items ≡ 11 }
    ensures ranks { IfOk result (λ ranks. AreRanks hierarchy.now.links db.now threshold ranks) }
    ensures items { IfOk result (λ ranks. length ranks.frequencies ≡ 11) }
{
    let names = names_of(alloc, &WORDS)?;
    count(rt, alloc, hierarchy, db, threshold, &names, 2)
}

/// The job of the shape and these lines, each so many times.
pub(crate) fn job<T: Threads + Sync>(
    rt: &T,
    alloc: Global,
    shape: Shape,
    lines: Lines,
    times: u32,
    threshold: u64,
) -> Result<Job, NoMemory>
    requires { 1 ≤ threshold }
{
    let hierarchy = hierarchy(alloc)?;
    let db = database(alloc, lines, times)?;
    let fst = transducer(alloc, shape)?;
    let ranks = ranked(rt, alloc, &hierarchy, &db, threshold)?;
    Ok(Job::new(hierarchy, db, fst, ranks, threshold))
}

/// Writes each number with a blank before it.
pub(crate) fn add_numbers(text: &mut String, numbers: &[u32]) -> Result<(), NoMemory> {
    for number in numbers {
        write!(text, " {number}")?;
    }
    Ok(())
}

/// Writes the name of each item with a blank before it.
pub(crate) fn add_names(text: &mut String, items: &[Item]) -> Result<(), NoMemory> {
    for item in items {
        let word = WORDS.get(item.0 as usize).copied().unwrap_or("?");
        write!(text, " {word}")?;
    }
    Ok(())
}

/// The rows, in their order: each with its support, its names and a comma.
pub(crate) fn text_of_rows(alloc: Global, rows: &[Row]) -> Result<String, NoMemory> {
    let mut text = String::new(alloc);
    for row in rows {
        write!(text, "{}", row.support)?;
        add_names(&mut text, row.pattern.items())?;
        text.push(',')?;
    }
    Ok(text)
}

fn has_row(rows: &[Row], support: u64, items: &[Item]) -> bool {
    for row in rows {
        if row.support == support && row.pattern.items() == items {
            return true;
        }
    }
    false
}

/// Whether the rows are these, in any order.
pub(crate) fn are_rows(rows: &[Row], want: Lines) -> bool {
    for (support, items) in want {
        if !has_row(rows, *support, items) {
            return false;
        }
    }
    rows.len() == want.len()
}
