ghost use Rattle.std.specs.Prelude.{◌≡◌, ◌≢◌, ◌^◌, ◌≤◌, ◌<◌, ◌↔◌, length, slice_index, All, AllPairs, Contains, IsNone, IfSome, IfOk};
ghost use Rattle.mine_model.specs.declared.item.Item.{Item};
ghost use Rattle.mine_model.specs.Ranks.{HasRank, frequency_in, IsRankTable};

use super::item::Item;
use super::memory::NoMemory;
use std::alloc::Global;
use std::marker::Model;

/// Items in the order of their ranks, and the frequency of each item, by its number.
///
/// A table has the rank of each item as well, 0 for an item that has none.
#[derive(Debug, Drop)]
pub struct Ranks {
    order: Vec<Item>,
    table: Vec<u32>,
    frequencies: Vec<u64>,
}

impl Model for Ranks {
    ghost use Rattle.mine_model.specs.Ranks.{Ranking, AreKept};

    ghost Value = { Ranking };

    ghost view = { λ r. record { order = r.order.items; frequencies = r.frequencies.items } };

    ghost invariant = { λ r. AreKept r.order.items r.table.items r.frequencies.items };
}

impl Ranks {
    /// The ranks of these items, the first of which gets the rank 1, and these frequencies.
    pub fn new(alloc: Global, order: Vec<Item>, frequencies: Vec<u64>) -> Result<Ranks, NoMemory>
        requires different { AllPairs (λ v w. v ≢ w) order.items }
        requires within { All (λ w. w.0 < length frequencies.items) order.items }
        requires few { length frequencies.items < 2 ^ 32 }
        ensures { IfOk result (λ ranks. ranks
            ≡ record { order = order.items; frequencies = frequencies.items }) }
    {
        let table = table_of(alloc, order.as_slice(), frequencies.len())?;
        Ok(Ranks {
            order,
            table,
            frequencies,
        })
    }

    /// The rank of an item, if it has one. Takes no memory.
    pub fn rank(&self, item: Item) -> Option<u32>
        ensures none { IsNone result ↔ ¬ Contains self.now.order item }
        ensures rank { IfSome result (λ rank. HasRank self.now.order item rank) }
        ensures most { IfSome result (λ rank. rank ≤ length self.now.order) }
    {
        let rank = entry(self.table.as_slice(), item.0 as usize);
        if rank == 0 { None } else { Some(rank) }
    }

    /// The item with a rank, counted from 1. Takes no memory.
    pub fn item(&self, rank: u32) -> Item
        requires least { 1 ≤ rank }
        requires most { rank ≤ length self.now.order }
        ensures rank { HasRank self.now.order result rank }
        ensures held { Contains self.now.order result }
        ensures within { result.0 < length self.now.frequencies }
    {
        self.order[rank as usize - 1]
    }

    /// How many items have a rank. Takes no memory.
    pub fn count(&self) -> u32
        ensures count { result ≡ length self.now.order }
        ensures most { result ≤ length self.now.frequencies }
        ensures different { AllPairs (λ v w. v ≢ w) self.now.order }
        ensures within { All (λ w. w.0 < length self.now.frequencies) self.now.order }
        ensures few { length self.now.frequencies < 2 ^ 32 }
    {
        self.order.len() as u32
    }

    /// The frequency of an item. Takes no memory.
    pub fn frequency(&self, item: Item) -> u64
        requires { item.0 < length self.now.frequencies }
        ensures { result ≡ frequency_in self.now item }
    {
        self.frequencies[item.0 as usize]
    }
}

// What the table has at this number, 0 past its end.
fn entry(table: &[u32], number: usize) -> u32
    ensures { result ≡ slice_index table.now number }
{
    table.get(number).copied().unwrap_or(0)
}

// The rank of each item by its number, where there are so many items.
fn table_of(alloc: Global, order: &[Item], items: usize) -> Result<Vec<u32>, NoMemory>
    requires different { AllPairs (λ v w. v ≢ w) order.now }
    requires within { All (λ w. w.0 < items) order.now }
    requires few { items < 2 ^ 32 }
    ensures table { IfOk result (λ table. IsRankTable order.now table.items) }
    ensures length { IfOk result (λ table. length table.items ≡ items) }
{
    let mut table = vec![in alloc; 0u32; items]?;
    for (place, item) in order.iter().enumerate() {
        table[item.0 as usize] = place as u32 + 1;
    }
    Ok(table)
}
