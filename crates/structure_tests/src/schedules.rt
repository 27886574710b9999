//! Worked schedules of a small tree.
ghost use Rattle.std.specs.Prelude.{◌≡◌, ◌≤◌, IfOk, Some, [], ◌∷◌, ◌++◌, map};
ghost use Rattle.structure_tests.specs.Trees.{row_at, small_ranks as the_small_ranks};

use mine_model::{Item, NoMemory, Pattern, Row};
use pool_schedule::{Event, Machine, Posted, run_schedule, step};
use search_tree::{Grow, Grown, Label};
use std::alloc::Global;
use std::fmt::Write;
use test_facts::first_false;

/// The numbers of a label.
type Numbers = Vec<u32>;

/// The root of the trees below, whose label is 0.
fn root(alloc: Global) -> Result<Vec<Numbers>, NoMemory>
    ensures { IfOk result (λ roots. map (λ numbers. numbers.items) roots.items ≡ (0 ∷ []) ∷ []) }
{
    let mut roots = Vec::new(alloc);
    roots.push([0].to_vec(alloc)?)?;
    Ok(roots)
}

/// The row of a label: its numbers as items.
fn row(alloc: Global, label: &[u32]) -> Result<Row, NoMemory>
    ensures { IfOk result (λ row. Some row ≡ row_at [] label.now) }
{
    let mut items = Vec::new(alloc);
    for rank in label {
        items.push(Item(*rank))?;
    }
    Ok(Row {
        pattern: Pattern::new(items),
        support: 2,
    })
}

/// A label with a kid for each of the ranks, and with a row where there is none.
fn grown(alloc: Global, node: Numbers, ranks: &[u32]) -> Result<Grown<Numbers>, NoMemory>
    ensures label { IfOk result (λ grown. grown.label ≡ node.items) }
    ensures answer { IfOk result (λ grown. grown.row ≡ row_at ranks.now node.items) }
    ensures kids { IfOk result (λ grown.
        map (λ numbers. numbers.items) grown.kids.items ≡ map (λ rank. node.items ++ rank ∷ []) ranks.now) }
{
    let mut kids = Vec::new(alloc);
    for rank in ranks {
        let mut kid = node.as_slice().to_vec(alloc)?;
        kid.push(*rank)?;
        kids.push(kid)?;
    }
    let row = match ranks {
        [] => Some(row(alloc, node.as_slice())?),
        _ => None,
    };
    Ok(Grown {
        label: Label::new(node),
        row,
        kids,
    })
}

/// The tree with the labels 0, 0 3, 0 3 1, 0 3 2, 0 3 2 1, 0 3 3 and 0 3 3 1.
struct Small;

impl Grow for Small {
    type Node = Numbers;

    type Room = ();

    ghost use Rattle.std.specs.Prelude.{[], ◌∷◌};
    ghost use Rattle.search_tree.proofs.GrowthLemmas.{kids_of as kids_by};
    ghost use Rattle.structure_tests.specs.Trees.{row_by, small_ranks};

    ghost label_of = { λ _ node. node.items };

    ghost roots_of = { λ _. (0 ∷ []) ∷ [] };

    ghost kids_of = { λ _. kids_by small_ranks };

    ghost row_of = { λ _. row_by small_ranks };

    ghost IsOwn = { λ _ node. Unit {0} };

    ghost IsRoomy = { λ _ room. Unit {0} };

    fn room(&self, _alloc: Global) -> Result<(), NoMemory> {
        Ok(())
    }

    fn roots(&self, alloc: Global) -> Result<Vec<Numbers>, NoMemory> {
        root(alloc)
    }

    fn grow(
        &self,
        alloc: Global,
        node: Numbers,
        _room: &mut (),
    ) -> Result<Grown<Numbers>, NoMemory> {
        let ranks = small_ranks(node.as_slice());
        grown(alloc, node, ranks)
    }
}

/// The ranks that the kids of a label of the small tree add to it.
fn small_ranks(label: &[u32]) -> &'static [u32]
    ensures { result.now ≡ the_small_ranks label.now }
{
    if label == [0].as_slice() {
        &[3]
    } else if label == [0, 3].as_slice() {
        &[1, 2, 3]
    } else if label == [0, 3, 2].as_slice() || label == [0, 3, 3].as_slice() {
        &[1]
    } else {
        &[]
    }
}

/// The labels of the small tree in the order in which one worker posts them, and behind a bar the patterns
/// of the rows.
const IN_DEPTH: &str = " 0, 0 3, 0 3 3, 0 3 3 1, 0 3 2, 0 3 2 1, 0 3 1,| 0 3 3 1, 0 3 2 1, 0 3 1,";

fn text_of(alloc: Global, posted: &Posted) -> Result<String, NoMemory> {
    let mut text = String::new(alloc);
    for number in 0..posted.labels.len() {
        let label = posted.labels.label(alloc, number)?;
        for number in label.numbers() {
            write!(text, " {number}")?;
        }
        text.push(',')?;
    }
    text.push('|')?;
    for row in &posted.rows {
        for item in row.pattern.items() {
            write!(text, " {}", item.0)?;
        }
        text.push(',')?;
    }
    Ok(text)
}

/// What so many workers post of the small tree by these choices.
fn told(alloc: Global, workers: u32, choices: &[u64]) -> Result<String, NoMemory>
    requires some { 1 ≤ workers }
    requires few { workers ≤ 64 }
{
    let posted = run_schedule(alloc, &Small, workers, choices)?;
    text_of(alloc, &posted)
}

/// Whether so many workers post the small tree in depth by these choices.
fn is_in_depth(alloc: Global, workers: u32, choices: &[u64]) -> Result<bool, NoMemory>
    requires some { 1 ≤ workers }
    requires few { workers ≤ 64 }
{
    Ok(told(alloc, workers, choices)?.as_str() == IN_DEPTH)
}

/// The number of the first schedule that is not in depth. By the choice 1 the second worker steals the root.
/// Choices that are left over are ignored.
fn first_other(alloc: Global) -> Result<Option<usize>, NoMemory> {
    let facts = [
        is_in_depth(alloc, 3, &[])?,
        is_in_depth(alloc, 64, &[])?,
        is_in_depth(alloc, 1, &[0; 1_000])?,
        is_in_depth(alloc, 3, &[1])?,
    ];
    Ok(first_false(&facts))
}

#[test]
fn one_worker_posts_in_depth(rt: HostRuntime) {
    assert_eq!(rt; first_other(rt.alloc()), Ok(None));
}

/// Events of two workers, and whether each is enabled after those before it.
const EVENTS: [(Event, bool); 12] = [
    (Event::Grow { w: 0 }, false),
    (Event::Post { w: 2 }, false),
    (Event::Take { w: 1 }, false),
    (Event::Take { w: 2 }, false),
    (Event::Steal { w: 0, from: 0 }, false),
    (Event::Steal { w: 2, from: 0 }, false),
    (Event::Steal { w: 0, from: 2 }, false),
    (Event::Steal { w: 1, from: 0 }, true),
    (Event::Take { w: 0 }, false),
    (Event::Grow { w: 1 }, true),
    (Event::Grow { w: 1 }, false),
    (Event::Post { w: 1 }, true),
];

/// The number of the first event that is enabled otherwise.
fn first_wrong(alloc: Global) -> Result<Option<usize>, NoMemory> {
    let mut machine = Machine::new(alloc, &Small, 2)?;
    for (number, (event, is_enabled)) in EVENTS.iter().enumerate() {
        if step(alloc, &mut machine, &Small, *event, &mut ())? != *is_enabled {
            return Ok(Some(number));
        }
    }
    Ok(None)
}

#[test]
fn an_event_is_enabled_or_not(rt: HostRuntime) {
    assert_eq!(rt; first_wrong(rt.alloc()), Ok(None));
}
