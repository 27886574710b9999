ghost use Rattle.std.specs.Prelude.{◌≡◌, ℕ, ◌≤◌, ◌<◌, List, [], ◌∷◌, ◌++◌, length, All, OnOk, OnErr};
ghost use Rattle.mine_model.specs.declared.item.Item.{Item};
ghost use Rattle.mine_model.specs.Limits.{most_sequences, most_length, most_weight};
ghost use Rattle.mine_model.specs.Support.{Sequence};
ghost use Rattle.mine_model.specs.Database.{sequence_at, IsWithinLimits};

use super::item::Item;
use super::memory::NoMemory;
use flat_lists::FlatLists;
use std::alloc::Global;
use std::marker::Model;

/// Sequences of items, each with its weight.
#[derive(Debug, Drop)]
pub struct Db {
    sequences: FlatLists<Item>,
    weights: Vec<u64>,
}

impl Model for Db {
    ghost use Rattle.std.specs.Prelude.{List};
    ghost use Rattle.mine_model.specs.declared.item.Item.{Item};
    ghost use Rattle.mine_model.specs.Support.{Sequence};

    ghost Value = { List (Sequence Item) };

    ghost use Rattle.mine_model.specs.Database.{sequences_of, AreWeighted};

    ghost view = { λ d. sequences_of d.sequences.lists d.weights.items };

    ghost invariant = { λ d. AreWeighted d.sequences.lists d.weights.items };
}

impl Db {
    /// No sequences. Takes no memory.
    pub fn new(alloc: Global) -> Db
        ensures { result ≡ [] }
    {
        Db {
            sequences: FlatLists::new(alloc),
            weights: Vec::new(alloc),
        }
    }

    /// How many sequences there are. Takes no memory.
    pub fn sequences(&self) -> u32
        ensures count { result ≡ length self.now }
        ensures most { result ≤ most_sequences }
        ensures limits { All IsWithinLimits self.now }
    {
        self.weights.len() as u32
    }

    /// The items of the sequence with this number, counted from 0. Takes no memory.
    pub fn sequence(&self, i: u32) -> &[Item]
        requires { i < length self.now }
        ensures items { result.now ≡ (sequence_at self.now i).items }
        ensures most { length result.now ≤ most_length }
    {
        self.sequences.list(i as usize)
    }

    /// The weight of the sequence with this number, counted from 0. Takes no memory.
    pub fn weight(&self, i: u32) -> u64
        requires { i < length self.now }
        ensures weight { result ≡ (sequence_at self.now i).weight }
        ensures least { 1 ≤ result }
        ensures most { result ≤ most_weight }
    {
        self.weights[i as usize]
    }

    /// Appends a sequence of weight 1.
    pub fn push(&mut self, items: &[Item]) -> Result<(), NoMemory>
        requires few { length self.old < most_sequences }
        requires short { length items.now ≤ most_length }
        ensures ok { OnOk result (self.new ≡ self.old ++ (record { items = items.now; weight = 1 }) ∷ []) }
        ensures err { OnErr result (self.new ≡ self.old) }
    {
        self.push_weighted(items, 1)
    }

    /// Appends a sequence with its weight.
    pub fn push_weighted(&mut self, items: &[Item], weight: u64) -> Result<(), NoMemory>
        requires few { length self.old < most_sequences }
        requires short { length items.now ≤ most_length }
        requires least { 1 ≤ weight }
        requires most { weight ≤ most_weight }
        ensures ok { OnOk result (self.new
            ≡ self.old ++ (record { items = items.now; weight = weight }) ∷ []) }
        ensures err { OnErr result (self.new ≡ self.old) }
    {
        self.weights.reserve(1)?;
        self.sequences.push(items)?;
        self.weights.push_reserved(weight);
        Ok(())
    }
}
