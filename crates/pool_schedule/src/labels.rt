//! Labels one behind the other in memory.
ghost use Rattle.std.specs.Prelude.{◌≡◌, ◌≤◌, ◌<◌, [], ◌∷◌, ◌++◌, Some, IfOk, OnOk, OnErr, take, length, slice_get};

use mine_model::NoMemory;
use search_tree::Label;
use std::alloc::Global;
use std::marker::Model;

/// A label by the one before it: how many numbers both begin with, and how many others follow.
#[derive(Clone, Copy, Debug)]
pub(crate) struct Code {
    shared: usize,
    fresh: usize,
}

/// Labels by their numbers. Of each the numbers alone are kept that it does not share with the label before
/// it, so that the labels of a search in depth take little more than one number each.
#[derive(Drop)]
pub struct Labels {
    codes: Vec<Code>,
    /// The numbers that follow, of all labels.
    numbers: Vec<u32>,
    /// The last label.
    last: Vec<u32>,
}

impl Model for Labels {
    ghost use Rattle.std.specs.Prelude.{ℕ, List, []};
    ghost use Rattle.pool_schedule.specs.FrontCoding.{labels_by, AreCoded};

    ghost Value = { List (List ℕ) };

    ghost view = { λ l. labels_by [] l.codes.items l.numbers.items };

    ghost invariant = { λ l. AreCoded l.codes.items l.numbers.items l.last.items };
}

impl Labels {
    /// No labels. Takes no memory.
    pub fn new(alloc: Global) -> Labels
        ensures { result ≡ [] }
    {
        Labels {
            codes: Vec::new(alloc),
            numbers: Vec::new(alloc),
            last: Vec::new(alloc),
        }
    }

    /// How many labels there are.
    pub fn len(&self) -> usize
        ensures { result ≡ length self.now }
    {
        self.codes.len()
    }

    /// One more label. After `NoMemory` the labels are as before.
    pub fn push(&mut self, label: &[u32]) -> Result<(), NoMemory>
        ensures pushed { OnOk result (self.new ≡ self.old ++ label.now ∷ []) }
        ensures unchanged { OnErr result (self.new ≡ self.old) }
    {
        let shared = shared_length(self.last.as_slice(), label);
        let rest = &label[shared..];
        self.codes.reserve(1)?;
        self.numbers.reserve(rest.len())?;
        self.last.reserve(rest.len())?;
        self.last.truncate(shared);
        self.last.extend_from_slice(rest).unwrap();
        self.numbers.extend_from_slice(rest).unwrap();
        self.codes.push_reserved(Code {
            shared,
            fresh: rest.len(),
        });
        Ok(())
    }

    /// The label with this number, counted from 0. It takes a walk over all labels before it.
    pub fn label(&self, alloc: Global, number: usize) -> Result<Label, NoMemory>
        requires { number < length self.now }
        ensures { IfOk result (λ label. slice_get self.now number ≡ Some label) }
    {
        let mut label = Vec::new(alloc);
        let mut start = 0;
        for code in &self.codes[..=number] {
            let end = start + code.fresh;
            label.truncate(code.shared);
            label.extend_from_slice(&self.numbers[start..end])?;
            start = end;
        }
        Ok(Label::new(label))
    }
}

/// How many numbers both lists begin with.
fn shared_length(first: &[u32], second: &[u32]) -> usize
    ensures first { result ≤ length first.now }
    ensures second { result ≤ length second.now }
    ensures shared { take result first.now ≡ take result second.now }
{
    let most = first.len().min(second.len());
    for shared in 0..most {
        if first[shared] != second[shared] {
            return shared;
        }
    }
    most
}
