ghost use Rattle.std.specs.Prelude.{◌≡◌, ◌+◌, ◌-◌, ◌≤◌, ◌<◌, ℕ, true, false, List, [], ◌∷◌, ◌++◌, length, take, slice_index_or, slice_set, replicate, IfOk, OnOk, MatchOption, IsTrue};
ghost use Rattle.mine_model.specs.declared.item.Item.{Item};
ghost use Rattle.mine_model.specs.Hierarchy.{HasCycle};
ghost use Rattle.item_hierarchy.specs.declared.edges.EdgeRow.{EdgeRow};
ghost use Rattle.item_hierarchy.specs.Edges.{AreWithin};
ghost use Rattle.item_hierarchy.specs.ByChild.{AreByChild};
ghost use Rattle.item_hierarchy.specs.Walking.{links_upto, IsMarked, IsParentsFirst, Walks, steps_left};

use super::edges::EdgeRow;
use mine_model::{Item, NoMemory};
use std::alloc::Global;

// How far a walk has come with an item.
#[derive(Clone, Copy, Debug, PartialEq, Eq)]
pub(crate) enum Mark {
    New,
    Open,
    Done,
}

// A walk up the rows to a line: which row it goes on with at each item, the items that it is in, from the
// first one up, and those that it is done with, each behind its parents.
#[derive(Debug, Drop)]
pub(crate) struct Walk {
    marks: Vec<Mark>,
    next: Vec<usize>,
    open_items: Vec<Item>,
    order: Vec<Item>,
}

/// The items in an order in which parents come first, by the rows up to a line. None where these have a
/// cycle.
pub(crate) fn parents_first(
    alloc: Global,
    items: u32,
    starts: &[usize],
    rows: &[EdgeRow],
    line: u64,
) -> Result<Option<Vec<Item>>, NoMemory>
    requires sorted { AreByChild items starts.now rows.now }
    requires within { AreWithin items rows.now }
    ensures { IfOk result (λ found. MatchOption found (HasCycle (links_upto line rows.now))
        (λ order. IsParentsFirst (links_upto line rows.now) items order.items)) }
{
    let mut walk = Walk::new(alloc, items, starts)?;
    for number in 0..items {
        if !walk.climb(starts, rows, line, Item(number))? {
            return Ok(None);
        }
    }
    Ok(Some(walk.order))
}

impl Walk {
    fn new(alloc: Global, items: u32, starts: &[usize]) -> Result<Walk, NoMemory>
        ensures marks { IfOk result (λ walk. walk.marks.items ≡ replicate items Mark.New) }
        ensures next { IfOk result (λ walk. walk.next.items ≡ starts.now) }
        ensures open_items { IfOk result (λ walk. walk.open_items.items ≡ []) }
        ensures order { IfOk result (λ walk. walk.order.items ≡ []) }
    {
        Ok(Walk {
            marks: vec![in alloc; Mark::New; items as usize]?,
            next: Vec::from_slice(alloc, starts)?,
            open_items: Vec::new(alloc),
            order: Vec::with_capacity(alloc, items as usize)?,
        })
    }

    // Walks up from an item, until it and all above it are done. False where a cycle is met.
    fn climb(
        &mut self,
        starts: &[usize],
        rows: &[EdgeRow],
        line: u64,
        item: Item,
    ) -> Result<bool, NoMemory>
        requires walks { Walks (length self.old.marks.items) starts.now rows.now line
            self.old.marks.items self.old.next.items self.old.open_items.items self.old.order.items }
        requires idle { self.old.open_items.items ≡ [] }
        requires item { item.0 < length self.old.marks.items }
        ensures walks { IfOk result (λ on. IsTrue on
            → Walks (length self.old.marks.items) starts.now rows.now line
            self.new.marks.items self.new.next.items self.new.open_items.items self.new.order.items) }
        ensures idle { IfOk result (λ on. IsTrue on → self.new.open_items.items ≡ []) }
        ensures item { IfOk result (λ on. IsTrue on → IsMarked self.new.marks.items item Mark.New → ⊥) }
        ensures fewer { (t : Item) → IsMarked self.new.marks.items t Mark.New
            → IsMarked self.old.marks.items t Mark.New }
        ensures cycle { IfOk result (λ on. on ≡ false → HasCycle (links_upto line rows.now)) }
        ensures size { length self.new.marks.items ≡ length self.old.marks.items }
    {
        if self.marks[item.0 as usize] != Mark::New {
            return Ok(true);
        }
        self.enter(item)?;
        while let Some(top) = self.open_items.pop() {
            if !self.step(starts, rows, line, top)? {
                return Ok(false);
            }
        }
        Ok(true)
    }

    // One step from the last open item: up to a parent, or out of it where all its parents are done. False
    // where the parent is open, too.
    fn step(
        &mut self,
        starts: &[usize],
        rows: &[EdgeRow],
        line: u64,
        top: Item,
    ) -> Result<bool, NoMemory>
        requires walks { Walks (length self.old.marks.items) starts.now rows.now line
            self.old.marks.items self.old.next.items (self.old.open_items.items ++ top
            ∷ []) self.old.order.items }
        ensures walks { IfOk result (λ on. IsTrue on
            → Walks (length self.old.marks.items) starts.now rows.now line
            self.new.marks.items self.new.next.items self.new.open_items.items self.new.order.items) }
        ensures nearer { IfOk result (λ on. IsTrue on
            → steps_left self.new.marks.items self.new.open_items.items
            < steps_left self.old.marks.items (self.old.open_items.items ++ top ∷ [])) }
        ensures fewer { (t : Item) → IsMarked self.new.marks.items t Mark.New
            → IsMarked self.old.marks.items t Mark.New }
        ensures cycle { IfOk result (λ on. on ≡ false → HasCycle (links_upto line rows.now)) }
        ensures size { length self.new.marks.items ≡ length self.old.marks.items }
    {
        let number = top.0 as usize;
        let end = starts[number + 1];
        let at = next_undone(rows, self.marks.as_slice(), self.next[number], end, line);
        self.next[number] = at;
        if at == end {
            self.leave(top)?;
            return Ok(true);
        }
        self.open_items.push(top)?;
        let parent = rows[at].parent;
        if self.marks[parent.0 as usize] == Mark::Open {
            return Ok(false);
        }
        self.enter(parent)?;
        Ok(true)
    }

    fn enter(&mut self, item: Item) -> Result<(), NoMemory>
        requires { item.0 < length self.old.marks.items }
        ensures marks { OnOk result (self.new.marks.items ≡ slice_set self.old.marks.items item.0 Mark.Open) }
        ensures open_items { OnOk result (self.new.open_items.items ≡ self.old.open_items.items ++ item
            ∷ []) }
        ensures fewer { (t : Item) → IsMarked self.new.marks.items t Mark.New
            → IsMarked self.old.marks.items t Mark.New }
        ensures size { length self.new.marks.items ≡ length self.old.marks.items }
        ensures next { self.new.next ≡ self.old.next }
        ensures order { self.new.order ≡ self.old.order }
    {
        self.open_items.push(item)?;
        self.marks[item.0 as usize] = Mark::Open;
        Ok(())
    }

    fn leave(&mut self, item: Item) -> Result<(), NoMemory>
        requires { item.0 < length self.old.marks.items }
        ensures marks { OnOk result (self.new.marks.items ≡ slice_set self.old.marks.items item.0 Mark.Done) }
        ensures order { OnOk result (self.new.order.items ≡ self.old.order.items ++ item ∷ []) }
        ensures fewer { (t : Item) → IsMarked self.new.marks.items t Mark.New
            → IsMarked self.old.marks.items t Mark.New }
        ensures size { length self.new.marks.items ≡ length self.old.marks.items }
        ensures next { self.new.next ≡ self.old.next }
        ensures open_items { self.new.open_items ≡ self.old.open_items }
    {
        self.order.push(item)?;
        self.marks[item.0 as usize] = Mark::Done;
        Ok(())
    }
}

// The first row in this range that leads, by this line, to an item that is not done; or the end of the range.
fn next_undone(rows: &[EdgeRow], marks: &[Mark], from: usize, to: usize, line: u64) -> usize
    requires order { from ≤ to }
    requires end { to ≤ length rows.now }
    requires within { AreWithin (length marks.now) rows.now }
    ensures range { (from ≤ result) × (result ≤ to) }
    ensures passed { (k : ℕ) (d : EdgeRow) → from ≤ k → k < result → (slice_index_or rows.now k d).line ≤ line
        → IsMarked marks.now (slice_index_or rows.now k d).parent Mark.Done }
    ensures found { (d : EdgeRow) → result < to → ((slice_index_or rows.now result d).line ≤ line)
        × (IsMarked marks.now (slice_index_or rows.now result d).parent Mark.Done → ⊥) }
{
    for at in from..to {
        let row = rows[at];
        if row.line <= line && marks[row.parent.0 as usize] != Mark::Done {
            return at;
        }
    }
    to
}
