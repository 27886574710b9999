ghost use Rattle.std.specs.Prelude.{◌≡◌, ℕ, ◌+◌, ◌*◌, ◌^◌, ◌<◌, ◌≤◌, ◌↔◌, List, length, replicate, take, slice_index, OnOk, OnErr, IfOk};
ghost use Rattle.std.specs.Int.{bit_at};
ghost use Rattle.state_bits.specs.Members.{Has};
ghost use Rattle.member_counts.specs.Digits.{bit_in, bit_of};
ghost use Rattle.member_counts.specs.Counts.{count_in, sets_with, added_up};

use super::digits::Digits;
use super::low::{Low, WAITING};
use super::reaching::reaching;
use mine_model::NoMemory;
use state_bits::StateSet;
use std::alloc::Global;
use std::marker::Model;

/// How many of the sets that were given since the last clearing hold each member: a list of counts, by
/// member.
///
/// Sets wait until there are eight, which are added to all counts at once, bit by bit, however many members
/// they have: so adding one takes about one sum of words. Room for one digit more is taken when twice as many
/// sets were given, and kept when the counts are cleared.
pub struct MemberCounts<const W: usize> {
    waiting: [StateSet<W>; WAITING],
    filled: usize,
    low: Low<W>,
    digits: Vec<Digits<W>>,
    added: u64,
    members: StateSet<W>,
}

// Written out, so that it is let go of by a call, and not part by part wherever one is.
impl<const W: usize> Drop for MemberCounts<W> {
    fn drop(self) {
        let MemberCounts {
            waiting: _,
            filled: _,
            low: _,
            digits: _,
            added: _,
            members: _,
        } = self;
    }
}

impl<const W: usize> Model for MemberCounts<W> {
    ghost use Rattle.std.specs.Prelude.{ℕ, List};
    ghost use Rattle.member_counts.specs.Counts.{AreCounts, counts_in};

    ghost Value = { List ℕ };

    ghost view = { λ c. counts_in W c.waiting c.filled c.low c.digits.items };

    ghost invariant = { λ c. AreCounts W c.filled c.low c.digits.items c.added c.members };
}

impl<const W: usize> MemberCounts<W> {
    /// No set was given yet.
    pub fn new(alloc: Global) -> MemberCounts<W>
        requires { W ≤ 17 }
        ensures { result ≡ replicate (64 * W) 0 }
    {
        MemberCounts {
            waiting: [StateSet::new(); WAITING],
            filled: 0,
            low: Low::new(),
            digits: Vec::new(alloc),
            added: 0,
            members: all_members(),
        }
    }

    /// Adds one to the count of each member of the set. There is no memory for more sets than a count can
    /// tell.
    #[inline]
    pub fn add(&mut self, set: &StateSet<W>) -> Result<(), NoMemory>
        ensures members { OnOk result ((q : ℕ) → q < 64 * W → Has set.now q
            → slice_index self.new q ≡ slice_index self.old q + 1) }
        ensures others { OnOk result ((q : ℕ) → (Has set.now q → ⊥)
            → slice_index self.new q ≡ slice_index self.old q) }
        ensures err { OnErr result (self.new ≡ self.old) }
    {
        if self.filled < WAITING {
            self.waiting[self.filled] = *set;
            self.filled += 1;
            return Ok(());
        }
        if self.added >= u64::MAX - 16 {
            return Err(NoMemory);
        }
        add_eight(&self.waiting, set, &mut self.low, &mut self.digits)?;
        self.added += 8;
        self.filled = 0;
        Ok(())
    }

    /// The count of a member.
    pub fn count(&self, member: u32) -> u64
        requires { member < 64 * W }
        ensures { result ≡ slice_index self.now member }
    {
        let waiting = waiting_count(&self.waiting, self.filled, member);
        waiting + self.low.count(member) + 8 * digits_count(self.digits.as_slice(), member)
    }

    /// The members whose count is at least the threshold.
    pub fn reaching(&self, threshold: u64) -> StateSet<W>
        ensures { (q : ℕ) → Has result q ↔ ((q < 64 * W) × (threshold ≤ slice_index self.now q)) }
    {
        let low = self.low.with(&self.waiting, self.filled);
        reaching(&low, self.digits.as_slice(), &self.members, threshold)
    }

    /// Makes all counts 0.
    pub fn clear(&mut self)
        ensures { self.new ≡ replicate (64 * W) 0 }
    {
        self.filled = 0;
        self.low = Low::new();
        self.digits.clear();
        self.added = 0;
    }
}

// The set of all members for which there is room.
fn all_members<const W: usize>() -> StateSet<W>
    requires { W ≤ 17 }
    ensures { (q : ℕ) → Has result q ↔ (q < 64 * W) }
{
    let mut members = StateSet::new();
    for member in 0..64 * W as u32 {
        members.add(member);
    }
    members
}

// Adds eight sets to all counts.
#[inline(never)]
fn add_eight<const W: usize>(
    sets: &[StateSet<W>; WAITING],
    last: &StateSet<W>,
    low: &mut Low<W>,
    digits: &mut Vec<Digits<W>>,
) -> Result<(), NoMemory>
    requires { W ≤ 17 }
    ensures ok { OnOk result ((q : ℕ) → q < 64 * W → added_up low.new digits.new.items q
        ≡ added_up low.old digits.old.items q + sets_with sets.now q + bit_at last.now q) }
    ensures same_low { OnErr result (low.new ≡ low.old) }
    ensures same_digits { OnErr result (digits.new.items ≡ digits.old.items) }
{
    let mut more = *low;
    let row = more.add_eight(sets, last);
    add_row(digits, row)?;
    *low = more;
    Ok(())
}

// Adds a row to all counts.
#[inline]
fn add_row<const W: usize>(digits: &mut Vec<Digits<W>>, row: [u64; W]) -> Result<(), NoMemory>
    requires { W ≤ 17 }
    ensures ok { OnOk result ((q : ℕ) → count_in digits.new.items q
        ≡ count_in digits.old.items q + bit_in row.entry q) }
    ensures err { OnErr result (digits.new.items ≡ digits.old.items) }
{
    digits.reserve(1)?;
    if let Some(bits) = carry_row(digits.as_mut_slice(), row) {
        digits.push(Digits {
            bits,
            waiting: None,
        })?;
    }
    Ok(())
}

// Adds a row to the lowest digit, what that carries to the next one, and so on. What the highest one carries.
#[inline]
fn carry_row<const W: usize>(digits: &mut [Digits<W>], row: [u64; W]) -> Option<[u64; W]>
    requires { W ≤ 17 }
    ensures { (q : ℕ) → count_in digits.new q + 2 ^ length digits.old * bit_of result q
        ≡ count_in digits.old q + bit_in row.entry q }
{
    let mut carry = row;
    for digit in digits.iter_mut() {
        carry = digit.add(carry)?;
    }
    Some(carry)
}

// How many of the first so many sets hold the member.
fn waiting_count<const W: usize>(sets: &[StateSet<W>; WAITING], filled: usize, member: u32) -> u64
    requires filled { filled ≤ 7 }
    requires member { member < 64 * W }
    ensures { result ≡ sets_with (take filled sets.now) member }
{
    let mut count = 0;
    for index in 0..filled {
        if sets[index].has(member) {
            count += 1;
        }
    }
    count
}

// The member's count by these digits.
fn digits_count<const W: usize>(digits: &[Digits<W>], member: u32) -> u64
    requires width { W ≤ 17 }
    requires member { member < 64 * W }
    requires fits { count_in digits.now member < 2 ^ 64 }
    ensures { result ≡ count_in digits.now member }
{
    let mut count = 0;
    for index in (0..digits.len()).rev() {
        count = 2 * count + digits[index].digit(member);
    }
    count
}
