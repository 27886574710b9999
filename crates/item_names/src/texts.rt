//! Names one behind the other in memory.

ghost use Rattle.std.specs.Prelude.{◌≡◌, ◌≤◌, ◌<◌, ◌↔◌, List, [], ◌∷◌, ◌++◌, length, IsTrue, OnOk, OnErr};
ghost use Rattle.mine_model.specs.Limits.{most_items};
ghost use Rattle.mine_model.specs.Names.{name_of};

use flat_lists::FlatLists;
use mine_model::{Item, NoMemory};
use std::alloc::Global;
use std::marker::Model;

/// Names by their numbers.
#[derive(Debug, Drop)]
pub(crate) struct Texts {
    texts: FlatLists<u8>,
}

impl Model for Texts {
    ghost use Rattle.std.specs.Prelude.{List, ℕ, ◌≤◌, length};
    ghost use Rattle.mine_model.specs.Limits.{most_items};

    ghost Value = { List (List ℕ) };

    ghost view = { λ t. t.texts.lists };

    ghost invariant = { λ t. length t.texts.lists ≤ most_items };
}

impl Texts {
    /// No names. Takes no memory.
    pub(crate) fn new(alloc: Global) -> Texts
        ensures { result ≡ [] }
    {
        Texts {
            texts: FlatLists::new(alloc),
        }
    }

    pub(crate) fn count(&self) -> u32
        ensures count { result ≡ length self.now }
        ensures most { result ≤ most_items }
    {
        self.texts.len() as u32
    }

    pub(crate) fn text(&self, item: Item) -> &[u8]
        requires { item.0 < length self.now }
        ensures { result.now ≡ name_of self.now item }
    {
        self.texts.list(item.0 as usize)
    }

    pub(crate) fn is_text(&self, item: Item, name: &[u8]) -> bool
        requires { item.0 < length self.now }
        ensures { IsTrue result ↔ (name_of self.now item ≡ name.now) }
    {
        self.text(item) == name
    }

    pub(crate) fn push(&mut self, name: &[u8]) -> Result<(), NoMemory>
        requires { length self.old < most_items }
        ensures ok { OnOk result (self.new ≡ self.old ++ name.now ∷ []) }
        ensures err { OnErr result (self.new ≡ self.old) }
    {
        self.texts.push(name)?;
        Ok(())
    }
}
