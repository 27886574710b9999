//! Lists one behind the other in memory.
#![tactic(auto)]

ghost use Rattle.std.specs.Prelude.{◌≡◌, ◌+◌, ◌≤◌, ◌<◌, [], ◌∷◌, ◌++◌, length, slice_get, Some, OnOk, OnErr};
ghost use Rattle.flat_lists.specs.Cuts.{start_of};
ghost use Rattle.flat_lists.specs.Shelf.{elements_of};

use std::alloc::{AllocError, Global};
use std::marker::Model;

/// Lists by their numbers, counted from 0.
///
/// The elements of all lists stand in one vector, and a second one has where each list ends.
#[derive(Debug, Drop)]
pub struct FlatLists<T> {
    elements: Vec<T>,
    ends: Vec<usize>,
}

impl<T> Model for FlatLists<T> {
    ghost use Rattle.std.specs.Prelude.{length, vec_capacity};
    ghost use Rattle.flat_lists.specs.Cuts.{lists_in, AreCut};
    ghost use Rattle.flat_lists.specs.Shelf.{Shelf, shelf_code};

    ghost Value = { Shelf T };

    ghost coded = { shelf_code T.code };

    ghost view = { λ l. record {
      lists = lists_in l.ends.items l.elements.items;
      most_lists = vec_capacity l.ends;
      most_elements = vec_capacity l.elements;
    } };

    ghost invariant = { λ l. AreCut l.ends.items (length l.elements.items) };
}

impl<T> FlatLists<T> {
    /// No lists. Takes no memory.
    pub fn new(alloc: Global) -> FlatLists<T>
        ensures { result.lists ≡ [] }
    {
        FlatLists {
            elements: Vec::new(alloc),
            ends: Vec::new(alloc),
        }
    }

    /// How many lists there are.
    #[inline]
    pub fn len(&self) -> usize
        ensures { result ≡ length self.now.lists }
    {
        self.ends.len()
    }

    /// How many elements the lists have in all.
    #[inline]
    pub fn elements(&self) -> usize
        ensures { result ≡ elements_of self.now.lists }
    {
        self.elements.len()
    }

    /// The list with this number.
    #[inline]
    pub fn list(&self, number: usize) -> &[T]
        requires { number < length self.now.lists }
        ensures { slice_get self.now.lists number ≡ Some result.now }
    {
        let start = start_at(self.ends.as_slice(), number);
        let end = self.ends[number];
        &self.elements[start..end]
    }

    /// Takes memory for so many more lists with so many elements in all.
    pub fn reserve(&mut self, lists: usize, elements: usize) -> Result<(), AllocError>
        ensures lists { self.new.lists ≡ self.old.lists }
        ensures room_for_lists { OnOk result (length self.new.lists + lists ≤ self.new.most_lists) }
        ensures room_for_elements { OnOk result
            (elements_of self.new.lists + elements ≤ self.new.most_elements) }
    {
        self.ends.reserve(lists)?;
        self.elements.reserve(elements)?;
        Ok(())
    }
}

impl<T: Copy> FlatLists<T> {
    /// Appends a list.
    #[inline]
    pub fn push(&mut self, list: &[T]) -> Result<(), AllocError>
        ensures ok { OnOk result (self.new.lists ≡ self.old.lists ++ list.now ∷ []) }
        ensures err { OnErr result (self.new.lists ≡ self.old.lists) }
    {
        self.ends.reserve(1)?;
        self.elements.extend_from_slice(list)?;
        let end = self.elements.len();
        self.ends.push_reserved(end);
        Ok(())
    }

    /// Appends a list, for which there is memory.
    #[inline]
    pub fn push_reserved(&mut self, list: &[T])
        requires room_for_list { length self.old.lists < self.old.most_lists }
        requires room_for_elements { elements_of self.old.lists + length list.now ≤ self.old.most_elements }
        ensures lists { self.new.lists ≡ self.old.lists ++ list.now ∷ [] }
        ensures most_lists { self.old.most_lists ≤ self.new.most_lists }
        ensures most_elements { self.old.most_elements ≤ self.new.most_elements }
    {
        self.elements.extend_from_slice(list).unwrap();
        let end = self.elements.len();
        self.ends.push_reserved(end);
    }

    /// Takes all lists away. Keeps the memory.
    pub fn clear(&mut self)
        ensures lists { self.new.lists ≡ [] }
        ensures most_lists { self.new.most_lists ≡ self.old.most_lists }
        ensures most_elements { self.new.most_elements ≡ self.old.most_elements }
    {
        self.elements.clear();
        self.ends.clear();
    }
}

/// Where the list with this number begins.
#[inline]
fn start_at(ends: &[usize], number: usize) -> usize
    requires { number < length ends.now }
    ensures { result ≡ start_of ends.now number }
{
    match number.checked_sub(1) {
        Some(before) => ends[before],
        None => 0,
    }
}
