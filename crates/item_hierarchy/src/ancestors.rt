ghost use Rattle.std.specs.Prelude.{◌≡◌, ◌≢◌, ◌+◌, ◌^◌, ◌≤◌, ◌<◌, ◌⊎◌, ◌↔◌, ℕ, false, List, [], ◌∷◌, ◌++◌, length, slice_index, slice_index_or, replicate, All, AllPairs, Contains, IsPermutation, IfOk, OnOk, MatchOption, IsTrue};
ghost use Rattle.mine_model.specs.declared.item.Item.{Item};
ghost use Rattle.mine_model.specs.Limits.{most_ancestors};
ghost use Rattle.mine_model.specs.Hierarchy.{Link, IsAncestor, IsAcyclic, HasMoreAncestors};
ghost use Rattle.mine_model.specs.Ancestry.{AreRising};
ghost use Rattle.item_hierarchy.specs.declared.edges.EdgeRow.{EdgeRow};
ghost use Rattle.item_hierarchy.specs.Edges.{links_of, AreWithin};
ghost use Rattle.item_hierarchy.specs.ByChild.{AreByChild};
ghost use Rattle.item_hierarchy.specs.Walking.{IsParentsFirst};
ghost use Rattle.item_hierarchy.specs.Gathering.{part_at, IsForward, list_in, AreStamped, IsGathered, AreGathered, Adds, Overflows};

use super::edges::EdgeRow;
use mine_model::{Item, NoMemory};
use std::alloc::Global;

/// The items may have so many ancestors together.
pub const MOST_ANCESTORS: usize = 33_554_432;

// Where the list of an item lies.
#[derive(Clone, Copy, Debug)]
pub(crate) struct Part {
    pub(crate) from: u32,
    pub(crate) to: u32,
}

// The lists of ancestors of the items so far, one behind the other, what is gathered of the next list, and
// for each item the last one whose list it was gathered for, counted from 1.
#[derive(Debug, Drop)]
pub(crate) struct Ancestors {
    pub(crate) parts: Vec<Part>,
    pub(crate) lists: Vec<Item>,
    gathered: Vec<Item>,
    seen: Vec<u32>,
}

/// Gathers the ancestors of each item, in an order in which parents come first. None where they are too many.
pub(crate) fn ancestors_of(
    alloc: Global,
    items: u32,
    starts: &[usize],
    rows: &[EdgeRow],
    order: &[Item],
) -> Result<Option<Ancestors>, NoMemory>
    requires sorted { AreByChild items starts.now rows.now }
    requires within { AreWithin items rows.now }
    requires order { IsParentsFirst (links_of rows.now) items order.now }
    requires acyclic { IsAcyclic (links_of rows.now) }
    ensures { IfOk result (λ made. MatchOption made
        (HasMoreAncestors most_ancestors (links_of rows.now) (λ t. t.0 < items))
        (λ ancestors. AreGathered (links_of rows.now) order.now ancestors.parts.items ancestors.lists.items
        × (length ancestors.parts.items ≡ items) × (length ancestors.lists.items ≤ most_ancestors))) }
{
    let mut ancestors = Ancestors::new(alloc, items)?;
    for t in order {
        if !ancestors.add(starts, rows, *t)? {
            return Ok(None);
        }
    }
    Ok(Some(ancestors))
}

impl Ancestors {
    fn new(alloc: Global, items: u32) -> Result<Ancestors, NoMemory>
        ensures parts { IfOk result (λ made. length made.parts.items ≡ items) }
        ensures lists { IfOk result (λ made. made.lists.items ≡ []) }
        ensures seen { IfOk result (λ made. made.seen.items ≡ replicate items 0) }
    {
        Ok(Ancestors {
            parts: vec![in alloc; Part { from: 0, to: 0 }; items as usize]?,
            lists: Vec::new(alloc),
            gathered: Vec::new(alloc),
            seen: vec![in alloc; 0; items as usize]?,
        })
    }

    // Adds the list of an item, whose parents have theirs. False where there is no room.
    fn add(&mut self, starts: &[usize], rows: &[EdgeRow], t: Item) -> Result<bool, NoMemory>
        requires sorted { AreByChild (length self.old.parts.items) starts.now rows.now }
        requires within { AreWithin (length self.old.parts.items) rows.now }
        requires acyclic { IsAcyclic (links_of rows.now) }
        requires inside { t.0 < length self.old.parts.items }
        requires items { length self.old.parts.items < 2 ^ 32 }
        requires seen { length self.old.seen.items ≡ length self.old.parts.items }
        requires new { (n : ℕ) → slice_index self.old.seen.items n ≡ t.0 + 1 → ⊥ }
        requires parents { (parent : Item)
            → Contains (links_of rows.now) (record { child = t; parent = parent })
            → IsGathered (links_of rows.now) self.old.parts.items self.old.lists.items parent }
        requires few { length self.old.lists.items ≤ most_ancestors }
        ensures adds { IfOk result (λ fits. IsTrue fits
            → Adds (links_of rows.now) t self.old.parts.items self.old.lists.items
            self.new.parts.items self.new.lists.items) }
        ensures few { IfOk result (λ fits. IsTrue fits → length self.new.lists.items ≤ most_ancestors) }
        ensures overflows { IfOk result (λ fits. fits ≡ false
            → Overflows (links_of rows.now) t (length self.old.lists.items)) }
        ensures size { OnOk result (length self.new.seen.items ≡ length self.old.seen.items) }
        ensures seen { OnOk result ((n : ℕ) → (slice_index self.new.seen.items n ≡ t.0 + 1)
            ⊎ (slice_index self.new.seen.items n ≡ slice_index self.old.seen.items n)) }
    {
        let room = MOST_ANCESTORS - self.lists.len();
        if room == 0 {
            return Ok(false);
        }
        self.gathered.clear();
        self.gathered.push(t)?;
        self.seen[t.0 as usize] = t.0 + 1;
        if !self.gather_parents(starts, rows, t, room)? {
            return Ok(false);
        }
        sort(&mut self.gathered);
        self.keep(t)?;
        Ok(true)
    }

    // Gathers the ancestors of an item behind the item itself, from the lists of its parents. False where
    // there is no room for all.
    fn gather_parents(
        &mut self,
        starts: &[usize],
        rows: &[EdgeRow],
        t: Item,
        room: usize,
    ) -> Result<bool, NoMemory>
        requires sorted { AreByChild (length self.old.parts.items) starts.now rows.now }
        requires within { AreWithin (length self.old.parts.items) rows.now }
        requires acyclic { IsAcyclic (links_of rows.now) }
        requires inside { t.0 < length self.old.parts.items }
        requires items { length self.old.parts.items < 2 ^ 32 }
        requires seen { length self.old.seen.items ≡ length self.old.parts.items }
        requires parents { (parent : Item)
            → Contains (links_of rows.now) (record { child = t; parent = parent })
            → IsGathered (links_of rows.now) self.old.parts.items self.old.lists.items parent }
        requires stamped { AreStamped (t.0 + 1) self.old.seen.items self.old.gathered.items }
        requires own { self.old.gathered.items ≡ t ∷ [] }
        requires room { 1 ≤ room }
        ensures stamped { OnOk result (AreStamped (t.0 + 1) self.new.seen.items self.new.gathered.items) }
        ensures sound { OnOk result ((w : Item) → Contains self.new.gathered.items w
            → IsAncestor (links_of rows.now) w t) }
        ensures room { OnOk result (length self.new.gathered.items ≤ room) }
        ensures all { IfOk result (λ fits. IsTrue fits → (w : Item) → IsAncestor (links_of rows.now) w t
            → Contains self.new.gathered.items w) }
        ensures full { IfOk result (λ fits. fits ≡ false → (w : Item) × IsAncestor (links_of rows.now) w t
            × (Contains self.new.gathered.items w → ⊥) × (length self.new.gathered.items ≡ room)) }
        ensures size { OnOk result (length self.new.seen.items ≡ length self.old.seen.items) }
        ensures seen { OnOk result ((n : ℕ) → (slice_index self.new.seen.items n ≡ t.0 + 1)
            ⊎ (slice_index self.new.seen.items n ≡ slice_index self.old.seen.items n)) }
        ensures parts { self.new.parts ≡ self.old.parts }
        ensures lists { self.new.lists ≡ self.old.lists }
    {
        let number = t.0 as usize;
        for at in starts[number]..starts[number + 1] {
            if !self.gather_parent(rows[at].parent, t.0 + 1, room)? {
                return Ok(false);
            }
        }
        Ok(true)
    }

    // Gathers the list of a parent, unless the parent is gathered and so its list is. False where there is no
    // room for all of it.
    fn gather_parent(&mut self, parent: Item, stamp: u32, room: usize) -> Result<bool, NoMemory>
        requires inside { parent.0 < length self.old.parts.items }
        requires seen { length self.old.seen.items ≡ length self.old.parts.items }
        requires forward { IsForward (part_at self.old.parts.items parent.0) }
        requires end { (part_at self.old.parts.items parent.0).to ≤ length self.old.lists.items }
        requires within { All (λ w. w.0 < length self.old.seen.items)
            (list_in self.old.parts.items self.old.lists.items parent.0) }
        requires stamped { AreStamped stamp self.old.seen.items self.old.gathered.items }
        requires room { length self.old.gathered.items ≤ room }
        ensures stamped { OnOk result (AreStamped stamp self.new.seen.items self.new.gathered.items) }
        ensures kept { OnOk result ((w : Item) → Contains self.old.gathered.items w
            → Contains self.new.gathered.items w) }
        ensures from { OnOk result ((w : Item) → Contains self.new.gathered.items w
            → Contains self.old.gathered.items w
            ⊎ Contains (list_in self.old.parts.items self.old.lists.items parent.0) w) }
        ensures room { OnOk result (length self.new.gathered.items ≤ room) }
        ensures all { IfOk result (λ fits. IsTrue fits → Contains self.old.gathered.items parent
            ⊎ All (λ w. Contains self.new.gathered.items w)
            (list_in self.old.parts.items self.old.lists.items parent.0)) }
        ensures full { IfOk result (λ fits. fits ≡ false → (w : Item)
            × Contains (list_in self.old.parts.items self.old.lists.items parent.0) w
            × (Contains self.new.gathered.items w → ⊥) × (length self.new.gathered.items ≡ room)) }
        ensures size { OnOk result (length self.new.seen.items ≡ length self.old.seen.items) }
        ensures seen { OnOk result ((n : ℕ) → (slice_index self.new.seen.items n ≡ stamp)
            ⊎ (slice_index self.new.seen.items n ≡ slice_index self.old.seen.items n)) }
        ensures parts { self.new.parts ≡ self.old.parts }
        ensures lists { self.new.lists ≡ self.old.lists }
    {
        let number = parent.0 as usize;
        if self.seen[number] == stamp {
            return Ok(true);
        }
        let part = self.parts[number];
        let list = &self.lists[part.from as usize..part.to as usize];
        gather(list, stamp, room, &mut self.seen, &mut self.gathered)
    }

    // Puts what is gathered behind the lists, as the list of an item.
    fn keep(&mut self, t: Item) -> Result<(), NoMemory>
        requires inside { t.0 < length self.old.parts.items }
        requires few { length self.old.lists.items + length self.old.gathered.items ≤ most_ancestors }
        ensures lists { OnOk result (self.new.lists.items ≡ self.old.lists.items ++ self.old.gathered.items) }
        ensures size { length self.new.parts.items ≡ length self.old.parts.items }
        ensures others { OnOk result ((n : ℕ) → (n ≢ t.0)
            → part_at self.new.parts.items n ≡ part_at self.old.parts.items n) }
        ensures from { OnOk result ((part_at self.new.parts.items t.0).from ≡ length self.old.lists.items) }
        ensures to { OnOk result ((part_at self.new.parts.items t.0).to
            ≡ length self.old.lists.items + length self.old.gathered.items) }
        ensures seen { self.new.seen ≡ self.old.seen }
    {
        let from = self.lists.len() as u32;
        self.lists.extend_from_slice(self.gathered.as_slice())?;
        let to = self.lists.len() as u32;
        self.parts[t.0 as usize] = Part { from, to };
        Ok(())
    }
}

// Gathers the items of a list that have no stamp yet. False where there is no room for all of them.
fn gather(
    list: &[Item],
    stamp: u32,
    room: usize,
    seen: &mut Vec<u32>,
    gathered: &mut Vec<Item>,
) -> Result<bool, NoMemory>
    requires within { All (λ w. w.0 < length seen.old.items) list.now }
    requires stamped { AreStamped stamp seen.old.items gathered.old.items }
    requires room { length gathered.old.items ≤ room }
    ensures stamped { OnOk result (AreStamped stamp seen.new.items gathered.new.items) }
    ensures kept { OnOk result ((w : Item) → Contains gathered.old.items w → Contains gathered.new.items w) }
    ensures from { OnOk result ((w : Item) → Contains gathered.new.items w
        → Contains gathered.old.items w ⊎ Contains list.now w) }
    ensures room { OnOk result (length gathered.new.items ≤ room) }
    ensures all { IfOk result (λ fits. IsTrue fits → All (λ w. Contains gathered.new.items w) list.now) }
    ensures full { IfOk result (λ fits. fits ≡ false → (w : Item) × Contains list.now w
        × (Contains gathered.new.items w → ⊥) × (length gathered.new.items ≡ room)) }
    ensures size { OnOk result (length seen.new.items ≡ length seen.old.items) }
    ensures seen { OnOk result ((n : ℕ) → (slice_index seen.new.items n ≡ stamp)
        ⊎ (slice_index seen.new.items n ≡ slice_index seen.old.items n)) }
{
    for w in list {
        if seen[w.0 as usize] != stamp {
            if gathered.len() == room {
                return Ok(false);
            }
            gathered.push(*w)?;
            seen[w.0 as usize] = stamp;
        }
    }
    Ok(true)
}

// Sorts different items by number. Most lists are sorted before.
fn sort(items: &mut Vec<Item>)
    requires { AllPairs (λ v w. v ≢ w) items.old.items }
    ensures rising { AreRising items.new.items }
    ensures same { IsPermutation items.old.items items.new.items }
{
    if !is_rising(items.as_slice()) {
        items.sort_unstable_by_key(|w| w.0);
    }
}

fn is_rising(items: &[Item]) -> bool
    ensures { IsTrue result ↔ AreRising items.now }
{
    for i in 1..items.len() {
        if items[i].0 <= items[i - 1].0 {
            return false;
        }
    }
    true
}
