ghost use Rattle.std.specs.Prelude.{◌≡◌, ℕ, List};

use std::marker::Model;

/// An item, by its number.
#[derive(Clone, Copy, Debug, PartialEq, Eq, PartialOrd, Ord, Hash)]
pub struct Item(pub u32);

/// The name of an item: bytes, in no stated encoding.
#[derive(Debug, Drop)]
pub struct Name(Vec<u8>);

impl Model for Name {
    ghost Value = { List ℕ };

    ghost view = { λ n. n.0.items };
}

impl Name {
    /// The name with these bytes. Takes no memory.
    pub fn new(bytes: Vec<u8>) -> Name
        ensures { result ≡ bytes.items }
    {
        Name(bytes)
    }

    /// Its bytes.
    pub fn bytes(&self) -> &[u8]
        ensures { result.now ≡ self.now }
    {
        self.0.as_slice()
    }
}

/// A pattern: a sequence of items.
#[derive(Debug, Drop)]
pub struct Pattern(Vec<Item>);

impl Model for Pattern {
    ghost use Rattle.std.specs.Prelude.{List};
    ghost use Rattle.mine_model.specs.declared.item.Item.{Item};

    ghost Value = { List Item };

    ghost view = { λ p. p.0.items };
}

impl Pattern {
    /// The pattern with these items. Takes no memory.
    pub fn new(items: Vec<Item>) -> Pattern
        ensures { result ≡ items.items }
    {
        Pattern(items)
    }

    /// Its items.
    pub fn items(&self) -> &[Item]
        ensures { result.now ≡ self.now }
    {
        self.0.as_slice()
    }
}
