//! The names of another, and the names that came first.

ghost use Rattle.std.specs.Prelude.{◌≡◌, ℕ, ◌≤◌, List, ◌++◌, Err, length, take, IfOk, OnOk};
ghost use Rattle.mine_model.specs.Limits.{most_items};
ghost use Rattle.mine_model.specs.Names.{GrowBy};
ghost use Rattle.mine_model.specs.Refusal.{HasMoreNames};
ghost use Rattle.item_names.specs.Fields.{AreItemsOf};

use super::names_fault::NamesFault;
use crate::{MOST_NAMES, Names};
use mine_model::{Item, NoMemory};
use std::alloc::Global;

impl Names {
    /// Leaves the items that have the names of another here, in the order of their numbers there. A new name
    /// gets the next number. After a refusal the names that were met so far are held as well.
    pub fn intern_all(&mut self, other: &Names, items: &mut Vec<Item>) -> Result<(), NamesFault>
        ensures items { OnOk result (AreItemsOf self.new items.new.items other.now) }
        ensures grown { OnOk result (GrowBy self.old other.now self.new) }
        ensures room { OnOk result (length self.new ≤ most_items) }
        ensures kept { (added : List (List ℕ)) × (self.new ≡ self.old ++ added) }
        ensures too_many { result ≡ Err NamesFault.TooMany → HasMoreNames most_items (self.old ++ other.now) }
    {
        items.clear();
        for number in 0..other.count() {
            let item = match self.intern(other.text(Item(number))) {
                Ok(item) => item,
                Err(fault) => return Err(fault),
            };
            match items.push(item) {
                Ok(()) => {}
                Err(_) => return Err(NamesFault::NoMemory),
            }
        }
        prove!(self.count() <= MOST_NAMES);
        Ok(())
    }

    /// The names below this number, each with the number that it has here.
    pub fn first(&self, alloc: Global, count: u32) -> Result<Names, NoMemory>
        requires { count ≤ length self.now }
        ensures { IfOk result (λ names. names ≡ take count self.now) }
    {
        prove!(count <= self.count());
        let mut names = Names::new(alloc)?;
        for number in 0..count {
            match names.intern(self.text(Item(number))) {
                Ok(_) => {}
                Err(_) => return Err(NoMemory),
            }
        }
        Ok(names)
    }
}
