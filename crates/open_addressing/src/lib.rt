//! Tables of open addressing: numbers of keys, found by a search from the home of the key on.
#![tactic(auto)]

ghost use Rattle.std.specs.Prelude.{◌≡◌, ℕ, ◌≤◌, ◌<◌, ◌↔◌, length, IsTrue, MatchOption};
ghost use Rattle.open_addressing.specs.Table.{Layout, home_of, held_at};
ghost use Rattle.open_addressing.specs.Searching.{IsFirstFree, IsFirstFreeFrom};

/// The fewest slots of a table that has any.
const FEWEST_SLOTS: usize = 16;

/// A place of a table.
pub trait Slot: Copy {
    type Key;

    // What stands in a slot.
    ghost layout: { Layout Self.Key Self };

    fn is_free(self) -> bool
        ensures { IsTrue result ↔ (layout.held self ≡ 0) };
}

/// How a search through some slots ends.
#[derive(Clone, Copy, Debug)]
pub enum Outcome {
    /// At the slot with this number, counted from 0.
    Held(u32),
    /// At a free slot.
    Free,
    /// Behind the last one.
    Passed,
}

/// Where a search for a key with this hash begins, among so many slots.
#[inline(always)]
pub fn home(count: usize, hash: u64) -> usize
    requires { 0 < count }
    ensures home { result ≡ home_of count hash }
    ensures within { result < count }
{
    hash as usize & (count - 1)
}

/// How many slots a table of so many keys has: at least half of them stay free.
pub fn slots_for(count: usize) -> usize
    requires { count < 4294967296 }
    ensures { count < result }
{
    (2 * (count + 1)).max(FEWEST_SLOTS).next_power_of_two()
}

/// The free slot that a search for a key with this hash meets first.
#[inline]
pub fn free_slot<S: Slot>(slots: &[S], hash: u64) -> Option<usize>
    ensures { MatchOption result ((at : ℕ) → at < length slots.now → 0 < held_at S.layout slots.now at)
        (IsFirstFree S.layout slots.now hash) }
{
    if slots.is_empty() {
        return None;
    }
    let home = home(slots.len(), hash);
    match first_free(slots, home, slots.len()) {
        Some(at) => Some(at),
        None => first_free(slots, 0, home),
    }
}

/// The first free slot from `from` to before `to`.
#[inline]
fn first_free<S: Slot>(slots: &[S], from: usize, to: usize) -> Option<usize>
    requires { to ≤ length slots.now }
    ensures { MatchOption result ((at : ℕ) → from ≤ at → at < to → 0 < held_at S.layout slots.now at)
        (IsFirstFreeFrom S.layout slots.now from to) }
{
    for at in from..to {
        if slots[at].is_free() {
            return Some(at);
        }
    }
    None
}
