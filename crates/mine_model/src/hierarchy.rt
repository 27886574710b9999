ghost use Rattle.std.specs.Prelude.{◌≡◌, ◌≤◌, ◌<◌, ◌↔◌, max, length, All, Contains, IsTrue, OnOk, OnErr};
ghost use Rattle.flat_lists.specs.Cuts.{start_of};
ghost use Rattle.mine_model.specs.declared.item.Item.{Item};
ghost use Rattle.mine_model.specs.Limits.{most_items, most_ancestors};
ghost use Rattle.mine_model.specs.Hierarchy.{IsAncestor};
ghost use Rattle.mine_model.specs.Ancestry.{AreAncestorLists, AreRising, Lists};

use super::item::Item;
use super::memory::NoMemory;
use std::marker::Model;

/// Items in a hierarchy, each with the sorted list of its ancestors, itself among them.
///
/// The lists stand behind each other in one vector.
#[derive(Debug, Drop)]
pub struct Hierarchy {
    ends: Vec<u32>,
    lists: Vec<Item>,
}

impl Model for Hierarchy {
    ghost use Rattle.std.specs.Prelude.{◌+◌, ◌≤◌, length};
    ghost use Rattle.mine_model.specs.Limits.{most_ancestors};
    ghost use Rattle.mine_model.specs.Ancestry.{Ancestry, AreAncestorLists, ancestry_of};

    ghost Value = { Ancestry };

    ghost view = { λ h. ancestry_of h.ends.items h.lists.items };

    ghost invariant = { λ h. AreAncestorLists h.ends.items h.lists.items
        × (length h.ends.items ≤ most_ancestors)
        × (length h.lists.items ≤ most_ancestors + length h.ends.items) };
}

impl Hierarchy {
    /// The hierarchy with these lists, each of which ends where `ends` says. Takes no memory.
    pub fn new(ends: Vec<u32>, lists: Vec<Item>) -> Hierarchy
        requires lists { AreAncestorLists ends.items lists.items }
        requires few { length lists.items ≤ most_ancestors }
        ensures items { result.items ≡ length ends.items }
        ensures ancestors { (t w : Item) → t.0 < length ends.items
            → (IsAncestor result.links w t ↔ Lists ends.items lists.items t w) }
        ensures within { All (λ link. (link.child.0 < result.items)
            × (link.parent.0 < result.items)) result.links }
    {
        Hierarchy { ends, lists }
    }

    /// The number of items. Takes no memory.
    pub fn items(&self) -> u32
        ensures number { result ≡ self.now.items }
        ensures within { All (λ link. (link.child.0 < self.now.items)
            × (link.parent.0 < self.now.items)) self.now.links }
        ensures apart { (t w : Item) → IsAncestor self.now.links w t → IsAncestor self.now.links t w → w ≡ t }
    {
        self.ends.len() as u32
    }

    /// The ancestors of an item, itself among them. Takes no memory.
    pub fn ancestors(&self, t: Item) -> &[Item]
        requires { t.0 < self.now.items }
        ensures rising { AreRising result.now }
        ensures ancestors { (w : Item) → (Contains result.now w ↔ IsAncestor self.now.links w t) }
        ensures within { All (λ w. w.0 < self.now.items) result.now }
    {
        let number = t.0 as usize;
        let start = start_at(self.ends.as_slice(), number) as usize;
        let end = self.ends[number] as usize;
        &self.lists[start..end]
    }

    /// Whether w is t or stands above t. Takes no memory.
    pub fn is_above(&self, t: Item, w: Item) -> bool
        requires t { t.0 < self.now.items }
        requires w { w.0 < self.now.items }
        ensures { IsTrue result ↔ IsAncestor self.now.links w t }
    {
        if t == w {
            return true;
        }
        holds(self.ancestors(t), w)
    }

    /// Adds items without parents until there are at least so many.
    pub fn cover(&mut self, items: u32) -> Result<(), NoMemory>
        requires { items ≤ most_items }
        ensures items { OnOk result (self.new.items ≡ max self.old.items items) }
        ensures links { self.new.links ≡ self.old.links }
        ensures err { OnErr result (self.new ≡ self.old) }
    {
        let old = self.items();
        if items <= old {
            return Ok(());
        }
        let more = (items - old) as usize;
        self.ends.reserve(more)?;
        self.lists.reserve(more)?;
        for number in old..items {
            self.lists.push_reserved(Item(number));
            self.ends.push_reserved(self.lists.len() as u32);
        }
        Ok(())
    }
}

// Where the list of this number begins.
fn start_at(ends: &[u32], number: usize) -> u32
    requires { number ≤ length ends.now }
    ensures { result ≡ start_of ends.now number }
{
    match number.checked_sub(1) {
        Some(before) => ends[before],
        None => 0,
    }
}

// Whether the rising list holds w.
fn holds(list: &[Item], w: Item) -> bool
    requires { AreRising list.now }
    ensures { IsTrue result ↔ Contains list.now w }
{
    let mut low = 0;
    let mut high = list.len();
    while low < high {
        let middle = low + (high - low) / 2;
        let found = list[middle].0;
        if found == w.0 {
            return true;
        }
        if found < w.0 {
            low = middle + 1;
        } else {
            high = middle;
        }
    }
    false
}
