//! The order of the frequent items.

ghost use Rattle.std.specs.Prelude.{◌≡◌, ℕ, ◌^◌, ◌≤◌, ◌<◌, ◌↔◌, length, slice_index, AllPairs, Contains, IfOk};
ghost use Rattle.mine_model.specs.declared.item.Item.{Item};
ghost use Rattle.mine_model.specs.Names.{name_of};
ghost use Rattle.frequency_list.specs.Order.{item_cmp, ComesBefore};

use item_names::Names;
use mine_model::{Item, NoMemory};
use std::alloc::Global;
use std::cmp::Ordering;

/// The items whose frequency reaches the threshold, in the order of their ranks.
pub(crate) fn ranked(
    alloc: Global,
    frequencies: &[u64],
    threshold: u64,
    names: &Names,
) -> Result<Vec<Item>, NoMemory>
    requires { length frequencies.now ≤ length names.now }
    ensures frequent { IfOk result (λ order. (w : Item) → Contains order.items w
        ↔ ((w.0 < length frequencies.now) × (threshold ≤ slice_index frequencies.now w.0))) }
    ensures sorted { IfOk result (λ order. AllPairs (ComesBefore frequencies.now names.now) order.items) }
{
    // For the proof alone: names differ, so no two items have the same name.
    let _count = names.count();
    let mut order = frequent(alloc, frequencies, threshold)?;
    order.sort_unstable_by(|first, second| compare(frequencies, names, *first, *second));
    Ok(order)
}

/// The items whose frequency reaches the threshold, by their numbers.
fn frequent(alloc: Global, frequencies: &[u64], threshold: u64) -> Result<Vec<Item>, NoMemory>
    requires { length frequencies.now ≤ 2 ^ 32 }
    ensures exact { IfOk result (λ items. (w : Item) → Contains items.items w
        ↔ ((w.0 < length frequencies.now) × (threshold ≤ slice_index frequencies.now w.0))) }
    ensures rises { IfOk result (λ items. AllPairs (λ v w. v.0 < w.0) items.items) }
{
    let mut items = Vec::new(alloc);
    for (number, frequency) in frequencies.iter().enumerate() {
        if *frequency >= threshold {
            items.push(Item(number as u32))?;
        }
    }
    Ok(items)
}

// By falling frequency, then by names.
fn compare(frequencies: &[u64], names: &Names, first: Item, second: Item) -> Ordering
    ensures { result ≡ item_cmp frequencies.now names.now first second }
{
    let by_frequency = frequency(frequencies, second).cmp(&frequency(frequencies, first));
    by_frequency.then_with(|| name(names, first).cmp(name(names, second)))
}

// A comparison must serve at any items, so one past the end has the frequency 0.
fn frequency(frequencies: &[u64], item: Item) -> u64
    ensures { result ≡ slice_index frequencies.now item.0 }
{
    frequencies.get(item.0 as usize).copied().unwrap_or(0)
}

// And one with no name has the empty one.
fn name(names: &Names, item: Item) -> &[u8]
    ensures { result.now ≡ name_of names.now item }
{
    if item.0 < names.count() {
        names.text(item)
    } else {
        &[]
    }
}
