//! Records by place.

ghost use Rattle.std.specs.Prelude.{◌≡◌, ℕ, ◌%◌, ◌<◌, ◌^◌, ◌↔◌, [], ◌∷◌, ◌++◌, map, take, length, slice_get, Some, IsTrue, Contains, OnOk, OnErr};
ghost use Rattle.walk_places.specs.declared.places.Record.{Record as Entry};
ghost use Rattle.walk_places.specs.Names.{renamed};
ghost use Rattle.walk_places.specs.Records.{record_of, recoded, Fits, AreLow};

use mine_model::NoMemory;
use std::alloc::Global;
use std::marker::Model;

/// What a walk meets at a place: the kind of the item there, and the number of what the place does.
#[derive(Clone, Copy, Debug, PartialEq, Eq)]
pub struct Record {
    pub kind: u32,
    pub of: u32,
}

/// Records by place. A contract sees the list of them. A record takes four bytes up to the first one that
/// does not fit into them, and eight from there on.
#[derive(Drop)]
pub struct Places {
    codes: Vec<u32>,
    rest: Vec<Record>,
}

impl Model for Places {
    ghost use Rattle.std.specs.Prelude.{List, ◌++◌, map};
    ghost use Rattle.walk_places.specs.declared.places.Record.{Record};
    ghost use Rattle.walk_places.specs.Records.{record_of};

    ghost Value = { List Record };

    ghost view = { λ p. map record_of p.codes.items ++ p.rest.items };
}

impl Places {
    /// No places.
    pub fn new(alloc: Global) -> Places
        ensures { result ≡ [] }
    {
        Places {
            codes: Vec::new(alloc),
            rest: Vec::new(alloc),
        }
    }

    /// How many places there are.
    pub fn len(&self) -> usize
        ensures { result ≡ length self.now }
    {
        self.codes.len() + self.rest.len()
    }

    /// The record at the place.
    #[inline]
    pub fn get(&self, place: u32) -> Record
        requires { place < length self.now }
        ensures { slice_get self.now place ≡ Some result }
    {
        let place = place as usize;
        match self.codes.get(place) {
            Some(code) => decoded(*code),
            None => self.rest[place - self.codes.len()],
        }
    }

    /// Adds a place behind the others.
    pub fn push(&mut self, entry: Record) -> Result<(), NoMemory>
        ensures pushed { OnOk result (self.new ≡ self.old ++ entry ∷ []) }
        ensures same { OnErr result (self.new ≡ self.old) }
    {
        if self.rest.is_empty() && fits(entry) {
            self.codes.push(entry.kind * 4096 + entry.of)?;
        } else {
            self.rest.push(entry)?;
        }
        Ok(())
    }

    /// Adds those of another list behind the others, each with the number that is named for its own. Without
    /// memory the first of them are added.
    pub fn append_renamed(&mut self, more: &Places, names: &[u32]) -> Result<(), NoMemory>
        requires few { length more.now < 2 ^ 32 }
        requires known { (entry : Entry) → Contains more.now entry → entry.of < length names.now }
        ensures all { OnOk result (self.new ≡ self.old ++ map (renamed names.now) more.now) }
        ensures first { OnErr result ((count : ℕ)
            × (self.new ≡ self.old ++ map (renamed names.now) (take count more.now))) }
    {
        if self.rest.is_empty() && more.rest.is_empty() && are_low(names) {
            append_codes(&mut self.codes, more.codes.as_slice(), names)
        } else {
            self.push_renamed(more, names)
        }
    }

    // The same, place by place.
    fn push_renamed(&mut self, more: &Places, names: &[u32]) -> Result<(), NoMemory>
        requires few { length more.now < 2 ^ 32 }
        requires known { (entry : Entry) → Contains more.now entry → entry.of < length names.now }
        ensures all { OnOk result (self.new ≡ self.old ++ map (renamed names.now) more.now) }
        ensures first { OnErr result ((count : ℕ)
            × (self.new ≡ self.old ++ map (renamed names.now) (take count more.now))) }
    {
        for place in 0..more.len() as u32 {
            let entry = more.get(place);
            let of = names[entry.of as usize];
            self.push(Record {
                kind: entry.kind,
                of,
            })?;
        }
        Ok(())
    }
}

// Whether each of the names fits into 12 bits.
fn are_low(names: &[u32]) -> bool
    ensures { IsTrue result → AreLow names.now }
{
    for name in names {
        if *name >= 1 << 12 {
            return false;
        }
    }
    true
}

// Appends the codes, each with the number that is named for its own.
fn append_codes(codes: &mut Vec<u32>, more: &[u32], names: &[u32]) -> Result<(), NoMemory>
    requires known { (code : ℕ) → Contains more.now code → code % 4096 < length names.now }
    requires low { AreLow names.now }
    ensures all { OnOk result (codes.new.items ≡ codes.old.items ++ map (recoded names.now) more.now) }
    ensures none { OnErr result (codes.new.items ≡ codes.old.items) }
{
    codes.reserve(more.len())?;
    for code in more {
        codes.push_reserved(code / 4096 * 4096 + names[(code % 4096) as usize]);
    }
    Ok(())
}

// Whether the kind fits into 20 bits and the number into 12.
fn fits(entry: Record) -> bool
    ensures { IsTrue result ↔ Fits entry }
{
    entry.kind < 1 << 20 && entry.of < 1 << 12
}

// The record of a code.
#[inline]
fn decoded(code: u32) -> Record
    ensures { result ≡ record_of code }
{
    Record {
        kind: code / 4096,
        of: code % 4096,
    }
}
