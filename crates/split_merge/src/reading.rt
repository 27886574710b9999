//! Reads files of rows.

ghost use Rattle.std.specs.Prelude.{◌≡◌, ◌≢◌, ℕ, ◌≤◌, ◌↔◌, None, List, [], ◌∷◌, ◌++◌, Err, length, IsTrue, OnOk, IfSome};
ghost use Rattle.mine_model.specs.declared.row.Row.{Row};
ghost use Rattle.mine_model.specs.Limits.{most_items};
ghost use Rattle.mine_model.specs.Names.{AreDistinct};
ghost use Rattle.mine_model.specs.Text.{lines_of};
ghost use Rattle.text_ports.specs.Faults.{Rose};
ghost use Rattle.text_ports.specs.Lines.{OfBytes};
ghost use Rattle.split_merge.specs.Merging.{IsMergedFileRefusal};
ghost use Rattle.split_merge.specs.Rows.{AreRowsOfLines};
ghost use Rattle.split_merge.specs.Taking.{IsBehind, TookLine, RefusedLine};

use super::faults::MergeFault;
use super::merged::MergedRows;
use super::row_line::row_in;
use item_names::{MOST_NAMES, Names, NamesFault};
use mine_model::Item;
use std::alloc::Global;
use std::cmp::Ordering;
use std::mem;
use text_ports::{Files, LineVisitor, Span, TextFault, read_lines};

/// The row before in the same file: its support, none before the first row, and its names joined by one
/// space.
#[derive(Drop)]
pub(crate) struct Last {
    support: Option<u64>,
    names: Vec<u8>,
}

impl Last {
    /// Whether a row with this support and these names, joined by one space, comes behind. Joined names
    /// compare as names one by one do, since the space is less than each byte of a name.
    fn is_before(&self, support: u64, names: &[u8]) -> bool
        ensures { IsTrue result ↔ IsBehind self.now.support self.now.names.items support names.now }
    {
        match self.support {
            None => true,
            Some(before) if before == support => self.names.as_slice().cmp(names) == Ordering::Less,
            Some(before) => support < before,
        }
    }
}

/// What was read so far. `joined` is where the names of a line are joined, and `items` where its items are
/// collected.
#[derive(Drop)]
pub(crate) struct Merging {
    least: u64,
    names: Names,
    rows: MergedRows,
    last: Last,
    joined: Vec<u8>,
    items: Vec<Item>,
}

impl LineVisitor for Merging {
    type Fault = MergeFault;

    ghost took = { TookLine };

    ghost refused = { RefusedLine };

    fn line(&mut self, number: u64, text: &[u8], fields: &[Span]) -> Result<(), MergeFault> {
        let Some(said) = row_in(text, fields, self.least, &mut self.joined)? else {
            return Err(MergeFault::BadRow { line: number });
        };
        if !self.last.is_before(said.support, self.joined.as_slice()) {
            return Err(MergeFault::BadRow { line: number });
        }
        match self.names.intern_fields(text, said.names, &mut self.items) {
            Ok(()) => {}
            Err(NamesFault::TooMany) => return Err(MergeFault::TooManyItems { line: number }),
            Err(NamesFault::NoMemory) => return Err(MergeFault::NoMemory),
        }
        if self.rows.has(self.items.as_slice()) {
            return Err(MergeFault::BadRow { line: number });
        }
        match self.rows.push(self.items.as_slice(), said.support) {
            Ok(()) => {}
            Err(_) => return Err(MergeFault::NoMemory),
        }
        self.last.support = Some(said.support);
        mem::swap(&mut self.last.names, &mut self.joined);
        // Names differ, so a new list of items has new names.
        let _count = self.names.count();
        Ok(())
    }
}

/// Adds the rows of a file of an output to those held, by the numbers of their names. A new name gets the
/// next number. A support must be at least the threshold. The file must be in the order of an answer, and no
/// pattern may be held already. After a refusal rows and names of the lines before may be held as well.
pub fn read_rows<F: Files>(
    alloc: Global,
    files: &mut F,
    name: &str,
    threshold: u64,
    names: &mut Names,
    held: &mut MergedRows,
) -> Result<(), MergeFault>
    requires may { IsTrue (F.may files.old name.now) }
    ensures accepted { (lines : List (List ℕ)) → AreRowsOfLines threshold lines names.old held.old
        → OnOk result (OfBytes (F.holds files.old name.now) (λ bytes.
        AreRowsOfLines threshold (lines ++ lines_of bytes) names.new held.new
        × ((fault : MergeFault) → IsMergedFileRefusal threshold lines bytes fault → ⊥))) }
    ensures refused { (lines : List (List ℕ)) (fault : MergeFault)
        → AreRowsOfLines threshold lines names.old held.old → result ≡ Err fault
        → fault ≢ MergeFault.ReadFault → fault ≢ MergeFault.NoMemory
        → IfSome (F.holds files.old name.now) (λ bytes. IsMergedFileRefusal threshold lines bytes fault) }
    ensures failed { result ≡ Err MergeFault.ReadFault → Rose (F.faults files.old) (F.faults files.new) }
    ensures kept_names { (added : List (List ℕ)) × (names.new ≡ names.old ++ added) }
    ensures kept_rows { (added : List Row) × (held.new ≡ held.old ++ added) }
    ensures same_names { F.may files.new ≡ F.may files.old }
    ensures same_files { F.holds files.new ≡ F.holds files.old }
    ensures never_falls { F.faults files.old ≤ F.faults files.new }
{
    prove!(names.count() <= MOST_NAMES);
    let no_names = Names::new(alloc)?;
    let mut merging = Merging {
        least: threshold,
        names: mem::replace(names, no_names),
        rows: mem::replace(held, MergedRows::new(alloc)),
        last: Last {
            support: None,
            names: Vec::new(alloc),
        },
        joined: Vec::new(alloc),
        items: Vec::new(alloc),
    };
    let outcome = read_all(alloc, files, name, &mut merging);
    *names = merging.names;
    *held = merging.rows;
    outcome
}

/// Reads the whole file into what was read so far, which has no row of this file yet.
fn read_all<F: Files>(
    alloc: Global,
    files: &mut F,
    name: &str,
    merging: &mut Merging,
) -> Result<(), MergeFault>
    requires may { IsTrue (F.may files.old name.now) }
    requires room { length merging.old.names ≤ most_items }
    requires distinct { AreDistinct merging.old.names }
    requires first { merging.old.last.support ≡ None }
    ensures accepted { (lines : List (List ℕ))
        → AreRowsOfLines merging.old.least lines merging.old.names merging.old.rows
        → OnOk result (OfBytes (F.holds files.old name.now) (λ bytes.
        AreRowsOfLines merging.old.least (lines ++ lines_of bytes) merging.new.names merging.new.rows
        × ((fault : MergeFault) → IsMergedFileRefusal merging.old.least lines bytes fault → ⊥))) }
    ensures refused { (lines : List (List ℕ)) (fault : MergeFault)
        → AreRowsOfLines merging.old.least lines merging.old.names merging.old.rows → result ≡ Err fault
        → fault ≢ MergeFault.ReadFault → fault ≢ MergeFault.NoMemory
        → IfSome (F.holds files.old name.now) (λ bytes.
        IsMergedFileRefusal merging.old.least lines bytes fault) }
    ensures failed { result ≡ Err MergeFault.ReadFault → Rose (F.faults files.old) (F.faults files.new) }
    ensures kept_names { (added : List (List ℕ)) × (merging.new.names ≡ merging.old.names ++ added) }
    ensures kept_rows { (added : List Row) × (merging.new.rows ≡ merging.old.rows ++ added) }
    ensures same_names { F.may files.new ≡ F.may files.old }
    ensures same_files { F.holds files.new ≡ F.holds files.old }
    ensures never_falls { F.faults files.old ≤ F.faults files.new }
{
    match read_lines(alloc, files, name, merging) {
        Ok(_) => Ok(()),
        Err(TextFault::ReadFault) => Err(MergeFault::ReadFault),
        Err(TextFault::TooLarge) => Err(MergeFault::TooLarge),
        Err(TextFault::BadByte { line, column }) => Err(MergeFault::BadByte { line, column }),
        Err(TextFault::NameTooLong { line, column }) => Err(MergeFault::NameTooLong {
            line,
            column,
        }),
        Err(TextFault::Visitor(fault)) => Err(fault),
        Err(TextFault::NoMemory) => Err(MergeFault::NoMemory),
    }
}
