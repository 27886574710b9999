//! A table that finds the number of a name by its key.

ghost use Rattle.std.specs.Prelude.{◌≡◌, ◌-◌, ◌≤◌, ◌<◌, ◌↔◌, List, [], ◌∷◌, ◌++◌, map, length, slice_get, slice_index_or, Contains, Some, IsNone, IsTrue, IfSome, IfOk, OnOk};
ghost use Rattle.std.specs.List.{AllByRecursion};
ghost use Rattle.open_addressing.specs.Table.{home_of, IsSlot, IsTable};
ghost use Rattle.open_addressing.specs.Searching.{SearchEnds};
ghost use Rattle.item_names.specs.declared.keys.Key.{Key};
ghost use Rattle.item_names.specs.Table.{key_of, mixed, key_in, layout, AreBytes};

use super::keys::{Key, key_of};
use super::texts::Texts;
use mine_model::{Item, NoMemory};
use open_addressing::{Outcome, free_slot, home, slots_for};
use std::alloc::Global;

/// A place of the table. `held` is the number of a name, counted from 1, and 0 where the slot is free. The
/// other fields are the key of the name.
#[derive(Clone, Copy, Debug)]
pub(crate) struct Slot {
    low: u64,
    high: u64,
    size: u32,
    held: u32,
}

const FREE: Slot = Slot {
    low: 0,
    high: 0,
    size: 0,
    held: 0,
};

impl open_addressing::Slot for Slot {
    type Key = Key;

    ghost use Rattle.item_names.specs.Table.{layout};

    ghost layout = { layout };

    fn is_free(self) -> bool {
        self.held == 0
    }
}

/// The number of the name with this key, if it is held.
#[inline(always)]
pub(crate) fn find(texts: &Texts, slots: &[Slot], key: Key, name: &[u8]) -> Option<Item>
    requires table { IsTable layout (map key_of texts.now) slots.now }
    requires key { key ≡ key_of name.now }
    requires bytes { AllByRecursion AreBytes texts.now }
    ensures none { IsNone result ↔ ¬ Contains texts.now name.now }
    ensures number { IfSome result (λ item. slice_get texts.now item.0 ≡ Some name.now) }
{
    if slots.is_empty() {
        return None;
    }
    find_from(texts, slots, key, name, home(slots.len(), key.mixed()))
}

/// The same by a search from the home of the key on.
#[inline(always)]
fn find_from(texts: &Texts, slots: &[Slot], key: Key, name: &[u8], home: usize) -> Option<Item>
    requires table { IsTable layout (map key_of texts.now) slots.now }
    requires key { key ≡ key_of name.now }
    requires bytes { AllByRecursion AreBytes texts.now }
    requires home { home ≡ home_of (length slots.now) (mixed key) }
    requires within { home < length slots.now }
    ensures none { IsNone result ↔ ¬ Contains texts.now name.now }
    ensures number { IfSome result (λ item. slice_get texts.now item.0 ≡ Some name.now) }
{
    match search(texts, slots, key, name, home, slots.len()) {
        Outcome::Held(number) => Some(Item(number)),
        Outcome::Free => None,
        Outcome::Passed => match search(texts, slots, key, name, 0, home) {
            Outcome::Held(number) => Some(Item(number)),
            Outcome::Free => None,
            Outcome::Passed => None,
        },
    }
}

/// Looks for the name in the slots from `from` to before `to`, up to the first that is free.
#[inline(always)]
fn search(texts: &Texts, slots: &[Slot], key: Key, name: &[u8], from: usize, to: usize) -> Outcome
    requires table { IsTable layout (map key_of texts.now) slots.now }
    requires key { key ≡ key_of name.now }
    requires bytes { AllByRecursion AreBytes texts.now }
    requires within { to ≤ length slots.now }
    ensures { SearchEnds layout texts.now slots.now name.now from to result }
{
    for at in from..to {
        let slot = slots[at];
        if slot.held == 0 {
            return Outcome::Free;
        }
        if is_of(texts, slot, key, name) {
            return Outcome::Held(slot.held - 1);
        }
    }
    Outcome::Passed
}

#[inline(always)]
fn has_key(slot: Slot, key: Key) -> bool
    ensures { IsTrue result ↔ (key_in slot ≡ key) }
{
    slot.low == key.low && slot.high == key.high && slot.size == key.size
}

/// Whether the slot, which is taken, has the number of the name with this key.
#[inline(always)]
fn is_of(texts: &Texts, slot: Slot, key: Key, name: &[u8]) -> bool
    requires slot { IsSlot layout (map key_of texts.now) slot }
    requires taken { 0 < slot.held }
    requires key { key ≡ key_of name.now }
    requires bytes { AllByRecursion AreBytes texts.now }
    ensures { IsTrue result ↔ (slice_index_or texts.now (slot.held - 1) [] ≡ name.now) }
{
    has_key(slot, key) && (key.is_whole() || texts.is_text(Item(slot.held - 1), name))
}

/// Has a free slot for one more name, in a new table where more than three of four slots are taken.
pub(crate) fn make_room(texts: &Texts, slots: &mut Vec<Slot>) -> Result<(), NoMemory>
    requires { IsTable layout (map key_of texts.now) slots.old.items }
    ensures table { IsTable layout (map key_of texts.now) slots.new.items }
    ensures room { OnOk result (length texts.now < length slots.new.items) }
{
    if slots.len() / 4 * 3 <= texts.count() as usize {
        *slots = table_of(*slots.allocator(), texts)?;
    }
    Ok(())
}

/// A table of all the names, in which at least half of the slots are free.
fn table_of(alloc: Global, texts: &Texts) -> Result<Vec<Slot>, NoMemory>
    ensures table { IfOk result (λ slots. IsTable layout (map key_of texts.now) slots.items) }
    ensures room { IfOk result (λ slots. length texts.now < length slots.items) }
{
    let count = texts.count();
    let mut slots = vec![in alloc; FREE; slots_for(count as usize)]?;
    for number in 0..count {
        let key = key_of(texts.text(Item(number)));
        place(&mut slots, key, number);
    }
    Ok(slots)
}

/// Takes a slot for the number of a name with this key, where all smaller numbers have one.
pub(crate) fn place(slots: &mut Vec<Slot>, key: Key, number: u32)
    requires { number < 4294967295 }
    ensures size { length slots.new.items ≡ length slots.old.items }
    ensures table { (keys : List Key) → IsTable layout keys slots.old.items → length keys ≡ number
        → number < length slots.old.items → IsTable layout (keys ++ key ∷ []) slots.new.items }
{
    if let Some(at) = free_slot(slots.as_slice(), key.mixed()) {
        slots[at] = Slot {
            low: key.low,
            high: key.high,
            size: key.size,
            held: number + 1,
        };
    }
}
