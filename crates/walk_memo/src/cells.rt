//! A table that is filled cell by cell.

ghost use Rattle.std.specs.Prelude.{◌≡◌, ℕ, ◌+◌, ◌*◌, ◌<◌, ◌≤◌, ◌⊎◌, [], length, slice_get, Some, IfSome, OnOk};
ghost use Rattle.walk_memo.specs.Cells.{HasCell};

use mine_model::NoMemory;
use std::alloc::Global;

/// Rows of so many columns, one behind another, as far as they were reached. A cell is empty until something
/// is kept in it.
#[derive(Drop)]
pub(crate) struct Cells<T> {
    pub(crate) columns: u32,
    pub(crate) cells: Vec<Option<T>>,
}

impl<T: Copy> Cells<T> {
    /// No columns, and no row is reached.
    pub(crate) fn new(alloc: Global) -> Cells<T>
        ensures columns { result.columns ≡ 0 }
        ensures cells { result.cells.items ≡ [] }
    {
        Cells {
            columns: 0,
            cells: Vec::new(alloc),
        }
    }

    /// What is kept in the cell.
    #[inline]
    pub(crate) fn get(&self, row: u32, column: u32) -> Option<T>
        ensures { IfSome result (HasCell self.now row column) }
    {
        match self.cells.get(place(row, self.columns, column)) {
            Some(cell) => *cell,
            None => None,
        }
    }

    /// Keeps the value in the cell, and leaves all other cells as they are.
    pub(crate) fn keep(&mut self, row: u32, column: u32, value: T) -> Result<(), NoMemory>
        requires { column < self.old.columns }
        ensures columns { self.new.columns ≡ self.old.columns }
        ensures cells { (r k : ℕ) (v : T) → k < self.old.columns → HasCell self.new r k v
            → (((r ≡ row) × (k ≡ column) × (v ≡ value)) ⊎ HasCell self.old r k v) }
    {
        let place = place(row, self.columns, column);
        reach(&mut self.cells, place)?;
        self.cells[place] = Some(value);
        Ok(())
    }

    /// Begins anew with so many columns, all cells empty.
    pub(crate) fn begin(&mut self, columns: u32)
        ensures columns { self.new.columns ≡ columns }
        ensures cells { self.new.cells.items ≡ [] }
    {
        self.columns = columns;
        self.cells.clear();
    }

    /// Empties all cells.
    pub(crate) fn clear(&mut self)
        ensures columns { self.new.columns ≡ self.old.columns }
        ensures cells { self.new.cells.items ≡ [] }
    {
        self.cells.clear();
    }
}

// Where the cell of a row and a column stands.
#[inline]
fn place(row: u32, columns: u32, column: u32) -> usize
    ensures { result ≡ row * columns + column }
{
    row as usize * columns as usize + column as usize
}

// Appends empty cells until the place is one of a cell.
fn reach<T: Copy>(cells: &mut Vec<Option<T>>, place: usize) -> Result<(), NoMemory>
    ensures within { OnOk result (place < length cells.new.items) }
    ensures cells { (i : ℕ) (v : T) → slice_get cells.new.items i ≡ Some (Some v)
        → slice_get cells.old.items i ≡ Some (Some v) }
{
    'reached: while cells.len() <= place {
        cells.push(None)?;
    }
    Ok(())
}
