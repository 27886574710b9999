//! A table that finds the number of a list by its hash.

ghost use Rattle.std.specs.Prelude.{◌≡◌, ℕ, ◌+◌, ◌-◌, ◌≤◌, ◌<◌, ◌↔◌, List, [], ◌∷◌, ◌++◌, map, length, slice_get, slice_index_or, Contains, Some, IsNone, IsTrue, IfSome, IfOk, OnOk};
ghost use Rattle.open_addressing.specs.Table.{home_of, IsSlot, IsTable};
ghost use Rattle.open_addressing.specs.Searching.{SearchEnds};
ghost use Rattle.pattern_counts.specs.Hashes.{hash_of};
ghost use Rattle.pattern_counts.specs.Table.{layout};

use flat_lists::FlatLists;
use mine_model::NoMemory;
use open_addressing::{Outcome, free_slot, home, slots_for};
use std::alloc::Global;

/// A place of the table. `held` is the number of a list, counted from 1, and 0 where the slot is free. `hash`
/// is that of the list.
#[derive(Clone, Copy, Debug)]
pub(crate) struct Slot {
    hash: u32,
    held: u32,
}

const FREE: Slot = Slot { hash: 0, held: 0 };

impl open_addressing::Slot for Slot {
    ghost use Rattle.std.specs.Prelude.{ℕ};
    ghost use Rattle.pattern_counts.specs.Table.{layout};

    type Key = u32;

    ghost layout = { layout };

    fn is_free(self) -> bool {
        self.held == 0
    }
}

/// The number of the list with this hash, if it is held. Most lists stand at their home.
pub(crate) fn find(lists: &FlatLists<u32>, slots: &[Slot], hash: u32, list: &[u32]) -> Option<usize>
    requires table { IsTable layout (map hash_of lists.now.lists) slots.now }
    requires hash { hash ≡ hash_of list.now }
    ensures none { IsNone result ↔ ¬ Contains lists.now.lists list.now }
    ensures number { IfSome result (λ number. slice_get lists.now.lists number ≡ Some list.now) }
{
    if slots.is_empty() {
        return None;
    }
    let home = home(slots.len(), u64::from(hash));
    let slot = slots[home];
    if slot.held > 0 && is_of(lists, slot, hash, list) {
        return Some(slot.held as usize - 1);
    }
    find_from(lists, slots, hash, list, home)
}

/// The same by a search from the home of the hash on.
#[inline(never)]
fn find_from(
    lists: &FlatLists<u32>,
    slots: &[Slot],
    hash: u32,
    list: &[u32],
    home: usize,
) -> Option<usize>
    requires table { IsTable layout (map hash_of lists.now.lists) slots.now }
    requires hash { hash ≡ hash_of list.now }
    requires home { home ≡ home_of (length slots.now) hash }
    requires within { home < length slots.now }
    ensures none { IsNone result ↔ ¬ Contains lists.now.lists list.now }
    ensures number { IfSome result (λ number. slice_get lists.now.lists number ≡ Some list.now) }
{
    match search(lists, slots, hash, list, home, slots.len()) {
        Outcome::Held(number) => Some(number as usize),
        Outcome::Free => None,
        Outcome::Passed => match search(lists, slots, hash, list, 0, home) {
            Outcome::Held(number) => Some(number as usize),
            Outcome::Free => None,
            Outcome::Passed => None,
        },
    }
}

/// Looks for the list in the slots from `from` to before `to`, up to the first that is free.
fn search(
    lists: &FlatLists<u32>,
    slots: &[Slot],
    hash: u32,
    list: &[u32],
    from: usize,
    to: usize,
) -> Outcome
    requires table { IsTable layout (map hash_of lists.now.lists) slots.now }
    requires hash { hash ≡ hash_of list.now }
    requires within { to ≤ length slots.now }
    ensures { SearchEnds layout lists.now.lists slots.now list.now from to result }
{
    for at in from..to {
        let slot = slots[at];
        if slot.held == 0 {
            return Outcome::Free;
        }
        if is_of(lists, slot, hash, list) {
            return Outcome::Held(slot.held - 1);
        }
    }
    Outcome::Passed
}

/// Whether the slot, which is taken, has the number of the list with this hash.
fn is_of(lists: &FlatLists<u32>, slot: Slot, hash: u32, list: &[u32]) -> bool
    requires slot { IsSlot layout (map hash_of lists.now.lists) slot }
    requires taken { 0 < slot.held }
    requires hash { hash ≡ hash_of list.now }
    ensures { IsTrue result ↔ (slice_index_or lists.now.lists (slot.held - 1) [] ≡ list.now) }
{
    slot.hash == hash && is_list(lists, slot.held as usize - 1, list)
}

fn is_list(lists: &FlatLists<u32>, number: usize, list: &[u32]) -> bool
    requires { number < length lists.now.lists }
    ensures { IsTrue result ↔ (slice_index_or lists.now.lists number [] ≡ list.now) }
{
    lists.list(number) == list
}

/// Has free slots for so many more lists, in a new table where half of the slots would be taken.
pub(crate) fn make_room(hashes: &[u32], slots: &mut Vec<Slot>, more: usize) -> Result<(), NoMemory>
    requires table { IsTable layout hashes.now slots.old.items }
    requires few { length hashes.now + more < 4294967296 }
    ensures table { IsTable layout hashes.now slots.new.items }
    ensures room { OnOk result (length hashes.now + more < length slots.new.items) }
{
    let count = hashes.len() + more;
    if slots.len() / 2 <= count {
        *slots = table_of(*slots.allocator(), hashes, count)?;
    }
    Ok(())
}

/// A table of the lists with these hashes, less than half full when so many are in it.
fn table_of(alloc: Global, hashes: &[u32], count: usize) -> Result<Vec<Slot>, NoMemory>
    requires most { count < 4294967296 }
    requires within { length hashes.now ≤ count }
    ensures table { IfOk result (λ slots. IsTable layout hashes.now slots.items) }
    ensures room { IfOk result (λ slots. count < length slots.items) }
{
    let mut slots = vec![in alloc; FREE; slots_for(count)]?;
    for number in 0..hashes.len() {
        place(&mut slots, hashes[number], number as u32);
    }
    Ok(slots)
}

/// Takes a slot for the number of a list with this hash, where all smaller numbers have one.
pub(crate) fn place(slots: &mut Vec<Slot>, hash: u32, number: u32)
    requires { number < 4294967295 }
    ensures size { length slots.new.items ≡ length slots.old.items }
    ensures table { (hashes : List ℕ) → IsTable layout hashes slots.old.items → length hashes ≡ number
        → number < length slots.old.items → IsTable layout (hashes ++ hash ∷ []) slots.new.items }
{
    if let Some(at) = free_slot(slots.as_slice(), u64::from(hash)) {
        slots[at] = Slot {
            hash,
            held: number + 1,
        };
    }
}

/// What stands at the home of the hash, which may be that of another list.
pub(crate) fn held_at_home(slots: &[Slot], hash: u32) -> u32 {
    if slots.is_empty() {
        return 0;
    }
    slots[home(slots.len(), u64::from(hash))].held
}

/// Frees all slots.
pub(crate) fn free_all(slots: &mut Vec<Slot>)
    ensures size { length slots.new.items ≡ length slots.old.items }
    ensures table { IsTable layout [] slots.new.items }
{
    for slot in slots.iter_mut() {
        *slot = FREE;
    }
}
