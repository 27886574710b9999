//! Merges the outputs of other runs.

ghost use Rattle.std.specs.Prelude.{◌≡◌, ◌≢◌, ◌⊎◌, ◌≤◌, ℕ, List, [], All, Contains, Err, IfOk, IfErr, IsTrue, OnOk, length, map, string_bytes};
ghost use Rattle.text_ports.specs.Faults.{Rose};
ghost use Rattle.mine_model.specs.declared.fault.Fault.TheVariants.{Read, Write, NoMemory as OutOfMemory};
ghost use Rattle.mine_model.specs.declared.fault.Which.{Which};
ghost use Rattle.mine_model.specs.Names.{HasName, named_row};
ghost use Rattle.command_line.specs.Words.{most_merged};
ghost use Rattle.desq_run.specs.Merged.{fault_in};
ghost use Rattle.split_merge.specs.Rows.{AreRowsOfLines};
ghost use Rattle.desq_run.specs.Merging.{WereMerged, IsCutShort, WereTaken};

use item_names::Names;
use mine_model::{Fault, Row, Which};
use pattern_writer::order;
use split_merge::{MergeFault, MergedRows, read_rows, rows_read_in_order_are_the_merge};
use std::alloc::Global;
use text_ports::Files;

/// The rows of merged files in their order, and the names of their items.
#[derive(Debug, Drop)]
pub(crate) struct Merged {
    pub(crate) names: Names,
    pub(crate) rows: Vec<Row>,
}

/// The same fault, of this file.
fn fault_of(file: Which, fault: MergeFault) -> Fault
    ensures { result ≡ fault_in file fault }
{
    match fault {
        MergeFault::ReadFault => Fault::Read { file },
        MergeFault::TooLarge => Fault::TooLarge { file },
        MergeFault::BadByte { line, column } => Fault::BadByte { file, line, column },
        MergeFault::NameTooLong { line, column } => Fault::NameTooLong { file, line, column },
        MergeFault::BadRow { line } => Fault::BadRow { file, line },
        MergeFault::TooManyItems { line } => Fault::TooManyItems { file, line },
        MergeFault::NoMemory => Fault::NoMemory,
    }
}

/// Reads the rows of the files of these names, one file after another.
fn read_outputs<F: Files>(
    alloc: Global,
    threshold: u64,
    file_names: &[String],
    files: &mut F,
    names: &mut Names,
    held: &mut MergedRows,
) -> Result<(), Fault>
    requires may { (name : List ℕ) → Contains (map string_bytes file_names.now) name
        → IsTrue (F.may files.old name) }
    requires few { length file_names.now ≤ most_merged }
    requires none { AreRowsOfLines threshold [] names.old held.old }
    ensures taken { OnOk result (WereTaken threshold (F.holds files.old) (map string_bytes file_names.now)
        names.new held.new) }
    ensures cut { IfErr result (λ fault.
        IsCutShort threshold (F.holds files.old) (map string_bytes file_names.now) fault) }
    ensures read_fault { (file : Which) → result ≡ Err (Read file)
        → Rose (F.faults files.old) (F.faults files.new) }
    ensures no_write { result ≢ Err Write }
    ensures same_names { F.may files.new ≡ F.may files.old }
    ensures same_files { F.holds files.new ≡ F.holds files.old }
    ensures never_falls { F.faults files.old ≤ F.faults files.new }
{
    for (at, name) in file_names.iter().enumerate() {
        match read_rows(alloc, files, name.as_str(), threshold, names, held) {
            Ok(()) => {}
            Err(fault) => return Err(fault_of(Which::Merged(at as u32 + 1), fault)),
        }
    }
    Ok(())
}

/// The rows of the files of these names, which are outputs with supports of at least so much, in the order of
/// an answer.
pub(crate) fn merge_outputs<F: Files>(
    alloc: Global,
    threshold: u64,
    file_names: &[String],
    files: &mut F,
) -> Result<Merged, Fault>
    requires may { (name : List ℕ) → Contains (map string_bytes file_names.now) name
        → IsTrue (F.may files.old name) }
    requires few { length file_names.now ≤ most_merged }
    ensures merged { IfOk result (λ merged. WereMerged threshold (F.holds files.old)
        (map string_bytes file_names.now) (map (named_row merged.names) merged.rows.items)) }
    ensures named { IfOk result (λ merged. All
        (λ row. All (HasName merged.names) row.pattern) merged.rows.items) }
    ensures fails { IfErr result (λ fault. (fault ≡ OutOfMemory)
        ⊎ IsCutShort threshold (F.holds files.old) (map string_bytes file_names.now) fault) }
    ensures read_fault { (file : Which) → result ≡ Err (Read file)
        → Rose (F.faults files.old) (F.faults files.new) }
    ensures no_write { result ≢ Err Write }
    ensures same_names { F.may files.new ≡ F.may files.old }
    ensures same_files { F.holds files.new ≡ F.holds files.old }
    ensures never_falls { F.faults files.old ≤ F.faults files.new }
{
    // No lines say no rows, and what was read of all lines, brought into order, is the merge.
    rows_read_in_order_are_the_merge();
    let mut names = Names::new(alloc)?;
    let mut held = MergedRows::new(alloc);
    read_outputs(alloc, threshold, file_names, files, &mut names, &mut held)?;
    let mut rows = held.into_rows()?;
    order(rows.as_mut_slice(), &names);
    Ok(Merged { names, rows })
}
