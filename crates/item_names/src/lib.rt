//! Names and their numbers, one to one.
#![tactic(auto)]

mod fields;
mod joining;
mod keys;
mod names_fault;
mod table;
mod texts;

ghost use Rattle.std.specs.Prelude.{◌≡◌, ◌≤◌, ◌<◌, ◌↔◌, List, [], ◌∷◌, ◌++◌, length, slice_get, Contains, IsOk, IsNone, IfOk, IfSome, OnOk, OnErr};
ghost use Rattle.mine_model.specs.Limits.{most_items};
ghost use Rattle.mine_model.specs.Names.{name_of, AreDistinct};
ghost use Rattle.item_names.specs.Names.{IsInterned};
ghost use Rattle.item_names.specs.Table.{key_of};

use keys::{Key, key_of};
use mine_model::{Item, NoMemory};
pub use names_fault::NamesFault;
use std::alloc::Global;
use std::marker::Model;
use table::{Slot, find, make_room, place};
use texts::Texts;

/// As many names may be held.
pub const MOST_NAMES: u32 = 1_048_576;

/// Names, each with a number: the first name has the number 0, and each new one the next. A name keeps its
/// number.
///
/// Each name is stored once, behind the one before, and is found by its key.
#[derive(Debug)]
pub struct Names {
    texts: Texts,
    slots: Vec<Slot>,
}

// Written out, so that it is let go of by a call, and not part by part wherever one is.
impl Drop for Names {
    fn drop(self) {
        let Names { texts: _, slots: _ } = self;
    }
}

impl Model for Names {
    ghost use Rattle.std.specs.Prelude.{List, ℕ, map};
    ghost use Rattle.std.specs.List.{AllByRecursion};
    ghost use Rattle.mine_model.specs.Names.{AreDistinct};
    ghost use Rattle.open_addressing.specs.Table.{IsTable};
    ghost use Rattle.item_names.specs.Table.{key_of, layout, AreBytes};

    ghost Value = { List (List ℕ) };

    ghost view = { λ n. n.texts };

    ghost invariant = { λ n. AreDistinct n.texts × AllByRecursion AreBytes n.texts
        × IsTable layout (map key_of n.texts) n.slots.items };
}

impl Names {
    /// No names. The first name takes the first memory.
    pub fn new(alloc: Global) -> Result<Names, NoMemory>
        ensures { IfOk result (λ names. names ≡ []) }
    {
        Ok(Names {
            texts: Texts::new(alloc),
            slots: Vec::new(alloc),
        })
    }

    /// The number of a name: the one that it has, or the next. A name that is held takes no memory.
    #[inline(never)]
    pub fn intern(&mut self, name: &[u8]) -> Result<Item, NamesFault>
        ensures number { IfOk result (λ item. slice_get self.new item.0 ≡ Some name.now) }
        ensures names { OnOk result (IsInterned self.old name.now self.new) }
        ensures distinct { AreDistinct self.new }

        ensures held { Contains self.old name.now → IsOk result }
        ensures too_many { (result ≡ Err NamesFault.TooMany)
            ↔ ((length self.old ≡ most_items) × ¬ Contains self.old name.now) }
        ensures err { OnErr result (self.new ≡ self.old) }
    {
        let key = key_of(name);
        if let Some(item) = find(&self.texts, self.slots.as_slice(), key, name) {
            return Ok(item);
        }
        if self.texts.count() == MOST_NAMES {
            return Err(NamesFault::TooMany);
        }
        match self.append(key, name) {
            Ok(item) => Ok(item),
            Err(NoMemory) => Err(NamesFault::NoMemory),
        }
    }

    // Gives a new name the next number.
    fn append(&mut self, key: Key, name: &[u8]) -> Result<Item, NoMemory>
        requires new { ¬ Contains self.old name.now }
        requires key { key ≡ key_of name.now }
        requires room { length self.old < most_items }
        ensures number { IfOk result (λ item. item.0 ≡ length self.old) }
        ensures names { OnOk result (self.new ≡ self.old ++ name.now ∷ []) }
        ensures distinct { AreDistinct self.new }
        ensures err { OnErr result (self.new ≡ self.old) }
    {
        let number = self.texts.count();
        make_room(&self.texts, &mut self.slots)?;
        self.texts.push(name)?;
        place(&mut self.slots, key, number);
        Ok(Item(number))
    }

    /// The number of a name, if it is held. Takes no memory.
    pub fn find(&self, name: &[u8]) -> Option<Item>
        ensures none { IsNone result ↔ ¬ Contains self.now name.now }
        ensures number { IfSome result (λ item. slice_get self.now item.0 ≡ Some name.now) }
    {
        find(&self.texts, self.slots.as_slice(), key_of(name), name)
    }

    /// The name with a number. Takes no memory.
    pub fn text(&self, item: Item) -> &[u8]
        requires { item.0 < length self.now }
        ensures { result.now ≡ name_of self.now item }
    {
        self.texts.text(item)
    }

    /// How many names are held. Takes no memory.
    pub fn count(&self) -> u32
        ensures count { result ≡ length self.now }
        ensures most { result ≤ most_items }
        ensures distinct { AreDistinct self.now }
    {
        self.texts.count()
    }
}
